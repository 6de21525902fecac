// Exchanges of a host and a TNC with real stores, call by call, as tests.
#![tactic(auto)]

#[cfg(test)]
mod both;
#[cfg(test)]
mod calls;
#[cfg(test)]
mod host_side;
#[cfg(test)]
mod notes;
#[cfg(test)]
mod played;
#[cfg(test)]
mod refusals;
#[cfg(test)]
mod spares;
#[cfg(test)]
mod tables;
#[cfg(test)]
mod tnc_side;
