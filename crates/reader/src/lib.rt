// The byte reader, one code for both directions: it hears one byte a call, and passes whole frames and faults.
#![tactic(auto)]

mod body;
pub mod fault;
pub mod reader;
pub mod state;
