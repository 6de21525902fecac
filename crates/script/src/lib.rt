// A script of calls and bytes, as a capture tells it: what each of its lines says.
#![tactic(auto)]

pub mod command;
pub mod digits;
pub mod name;
pub mod number;
pub mod reading;
pub mod unreadable;
pub mod words;
