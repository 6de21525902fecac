// What the TNC answers its program of a frame.
use ends::name::Went;

/// The rule that a frame met.
#[derive(Clone, Copy, PartialEq, Eq, Debug)]
pub enum Rule {
    /// The flagged general poll: the link begins anew.
    Reset,
    /// A repeat of the last frame: the held answer once more.
    HeldAgain,
    /// The block is in the incoming store.
    BlockTaken,
    /// The incoming store refuses the block.
    NoPlace,
    /// A block for no channel.
    NoChannel,
    /// The first block of the channel was given.
    BlockGiven,
    /// No block waits on the channel.
    NothingWaiting,
    /// The list of the channels that wait was given.
    ListGiven,
    /// A command that is no poll.
    Unknown,
}

/// A frame that was heard: the rule that it met, the block that left its store with it, and the length of the answer.
#[derive(Clone, Copy, PartialEq, Eq, Debug)]
pub struct Heard {
    pub rule: Rule,
    pub went: Option<Went>,
    pub sent: usize,
}
