// What the host's calls answer.
ghost use Rattle.std.specs.Prelude.{◌≡◌};
ghost use Rattle.host.specs.Cause.{cause_number};
ghost use Rattle.host.specs.StepRule.{step_rule_number};

use crate::note::DoubtNote;
use ends::name::BlockName;
use ends::refusal::Refusal;

/// Why the link went down.
#[derive(Clone, Copy, PartialEq, Eq, Debug)]
pub enum Cause {
    /// A frame has had all its repeats.
    RepeatsUsed = 1,
    /// A frame out of sequence came, and none was to be expected any more.
    SpareUsed = 2,
    /// A frame in sequence that does not answer the one sent.
    WrongAnswer = 3,
}

impl Cause {
    // One line in each enum with numbers: `as` asks for the enum by name, and so would it in each impl of a trait.
    /// The number of the cause.
    pub fn number(self) -> u8
        ensures { result ≡ cause_number self }
    {
        self as u8
    }
}

/// The link went down: why, and a note for the block that was on its way, if one was.
pub struct Fall {
    pub cause: Cause,
    pub doubt: Option<DoubtNote>,
}

/// What a step sent. Each choice has its number: the first that applies is taken.
#[derive(Clone, Copy, PartialEq, Eq, Debug)]
pub enum StepRule {
    /// A general poll, since the last answer taken refused a block.
    PollAfterRefusal = 1,
    /// A poll of the first channel left on the list.
    ChannelPoll = 2,
    /// A block, the first that waits on the lowest channel where any does.
    Block = 3,
    GeneralPoll = 4,
}

impl StepRule {
    /// The number of the choice.
    pub fn number(self) -> u8
        ensures { result ≡ step_rule_number self }
    {
        self as u8
    }
}

/// A step: what it sent, and the length of the wire form.
#[derive(Clone, Copy, PartialEq, Eq, Debug)]
pub struct Stepped {
    pub rule: StepRule,
    pub sent: usize,
}

/// What a timer did. Either is what the rules want of it, so they are no `Result`, in which one would be the error.
pub enum Timed {
    /// It sent the frame again, of so many bytes.
    Repeated(usize),
    Down(Fall),
}

/// The rule that a frame met.
pub enum Heard {
    Stale,
    Opened,
    Confirmed(BlockName),
    BlockRefused,
    NothingThere,
    Received,
    Listed,
    Down(Fall),
}

/// A refused submission of a doubtful block: why, and its note, unspent.
pub struct Returned {
    pub refusal: Refusal,
    pub note: DoubtNote,
}
