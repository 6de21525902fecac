// The answer to the last frame accepted, held for the frame's repeats. The methods stand in the modules below, since their
// clauses name these types.
ghost use Rattle.std.specs.Prelude.{◌≡◌, true};
ghost use Rattle.poll.specs.List.{text_of};
ghost use Rattle.ends.specs.Frames.{is_good};

use ends::kept::KeptBlock;
use frame::head::Address;
use poll::channel::Channel;
use poll::list::ListText;

pub mod giving;
pub mod listing;

/// The list of the channels that waited. A frame carries it, since it is good.
#[derive(Drop)]
pub struct WaitingList {
    text: ListText,
    ghost good: { is_good (text_of text) ≡ true },
}

/// What an answer gives, and to whom.
#[derive(Drop)]
pub enum Given {
    /// The channel's block was taken, or none waits there.
    Success(Channel),
    NoPlace(Channel),
    NoChannel,
    Unknown(Address),
    List(WaitingList),
    /// The first block of the channel, which waits on until the TNC knows what became of it.
    Block(Channel, KeptBlock),
}

/// An answer: what it gives, and the frame's reset flag and toggle.
#[derive(Drop)]
pub struct Held {
    pub(crate) given: Given,
    pub(crate) reset: bool,
    pub(crate) toggle: bool,
}
