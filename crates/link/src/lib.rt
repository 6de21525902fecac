// Both ends of the link in one program: lists of calls on them, and the delivery law of what they
// did.
#![tactic(auto)]

pub mod call;
pub mod event;
pub mod observer;
pub mod pair;
