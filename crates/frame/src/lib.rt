// The frames of the link: their heads, and the bodies of both directions.
#![tactic(auto)]

pub mod form;
pub mod frames;
pub mod head;
