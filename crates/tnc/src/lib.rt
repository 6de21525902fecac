// The TNC end of the link: the modem, its slave.
#![tactic(auto)]

pub mod answer;
pub mod held;
pub mod tnc;
