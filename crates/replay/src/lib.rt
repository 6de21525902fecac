// Calls and bytes of a capture, made on the real ends: with stores of either kind, and the doubt notes that are not spent yet.
#![tactic(auto)]

pub mod any_store;
pub mod area;
pub mod buffers;
pub mod ending;
pub mod event;
pub mod notes;
pub mod session;
pub mod settings;
