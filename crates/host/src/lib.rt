// The host end of the link: the message terminal, its master.
#![tactic(auto)]

pub mod answer;
pub mod asked;
pub mod host;
pub mod note;
