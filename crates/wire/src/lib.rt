// The wire form of a frame, and the writer of both directions.
#![tactic(auto)]

pub mod writer;
