// Channels, and the poll lists that name them by listed values.
#![tactic(auto)]

pub mod channel;
pub mod list;
