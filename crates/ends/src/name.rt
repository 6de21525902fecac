// How an answer names a block.

/// A block by its channel and its number there, counted from 1.
#[derive(Clone, Copy, PartialEq, Eq, Debug)]
pub struct BlockName {
    pub channel: u8,
    pub number: u32,
}

/// Which block left its store with an answer: confirmed, so the other end has it, or doubtful, so it may have it.
#[derive(Clone, Copy, PartialEq, Eq, Debug)]
pub enum Went {
    Confirmed(BlockName),
    Doubtful(BlockName),
}
