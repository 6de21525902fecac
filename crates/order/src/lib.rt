// A provision order: cut into blocks, compared with what came of it, and told in words.
#![tactic(auto)]

pub mod blocks;
pub mod comparison;
pub mod line_rule;
pub mod outcome;
pub mod sheet;
pub mod summary;
mod tally;
pub mod words;
