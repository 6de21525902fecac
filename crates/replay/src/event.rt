// What came of a call or of a byte, and how it is told.
ghost use Rattle.std.specs.Prelude.{Some};
ghost use Rattle.hex.specs.Hex.{encode_upper};
ghost use Rattle.replay.specs.Event.{bytes_words, sending_word, met_word, rule_word, block_words, went_words, doubt_words, refusal_words, event_words};

use crate::buffers::Buffers;
use ends::name::{BlockName, Went};
use ends::refusal::Refusal;
use host::answer::{Cause, StepRule};
use std::fmt;
use tnc::answer::Rule;

/// Why the host sent a frame.
#[derive(Clone, Copy)]
pub enum Sending {
    Open,
    Step(StepRule),
    Repeat,
}

/// The rule that a frame met at the host, where it names no block and the link stays up.
#[derive(Clone, Copy)]
pub enum Met {
    Opened,
    BlockRefused,
    NothingThere,
    Received,
    Listed,
    Stale,
}

/// A doubtful block of the host, and the number of the note for it.
#[derive(Clone, Copy)]
pub struct Doubt {
    pub block: BlockName,
    pub note: u64,
}

/// What came of a call or of a byte. The bytes of a frame stand at the start of the wire buffer that the call was given, those of
/// a block at the start of the block buffer: so many of them.
#[derive(Clone, Copy)]
pub enum Event {
    /// The host sent a frame.
    Sent(Sending, usize),
    /// The link went down.
    Down(Cause, Option<Doubt>),
    /// The host heard a frame.
    Met(Met),
    /// The host heard that its block arrived.
    Confirmed(BlockName),
    /// The TNC heard a frame, and answered it.
    Answered(Rule, Option<Went>, usize),
    /// A block was submitted, and has this number.
    Number(u32),
    /// A note was written off.
    WrittenOff,
    /// A block was collected.
    Block(usize),
    /// The call was refused, or the frame dropped.
    Refused(Refusal),
    /// There is no note of this number.
    NoNote(u64),
}

/// An event, told with the bytes that the buffers hold after its call, two hexadecimal digits for each.
#[derive(Clone, Copy)]
pub struct Told<'a> {
    pub event: Event,
    pub buffers: &'a Buffers,
}

// The parts of what is told, each in words of its own.

// The first bytes of a buffer.
#[derive(Clone, Copy)]
struct BytesWords<'a> {
    count: usize,
    buffer: &'a [u8],
}

#[derive(Clone, Copy)]
struct HexWords<'a>(&'a [u8]);

#[derive(Clone, Copy)]
struct RuleWord(Rule);

#[derive(Clone, Copy)]
pub(crate) struct BlockWords(pub(crate) BlockName);

#[derive(Clone, Copy)]
struct WentWords(Option<Went>);

#[derive(Clone, Copy)]
struct DoubtWords(Option<Doubt>);

#[derive(Clone, Copy)]
struct RefusalWords(Refusal);

impl fmt::Display for Sending {
    ghost output = { λ s. Some (sending_word s) };

    fn fmt<W: fmt::Write>(&self, f: &mut fmt::Formatter<W>) -> fmt::Result {
        f.write_str(match self {
            Sending::Open => "open",
            Sending::Step(StepRule::PollAfterRefusal) => "poll-after-refusal",
            Sending::Step(StepRule::ChannelPoll) => "channel-poll",
            Sending::Step(StepRule::Block) => "block",
            Sending::Step(StepRule::GeneralPoll) => "general-poll",
            Sending::Repeat => "repeated",
        })
    }
}

impl fmt::Display for Met {
    ghost output = { λ m. Some (met_word m) };

    fn fmt<W: fmt::Write>(&self, f: &mut fmt::Formatter<W>) -> fmt::Result {
        f.write_str(match self {
            Met::Opened => "opened",
            Met::BlockRefused => "block-refused",
            Met::NothingThere => "nothing-there",
            Met::Received => "received",
            Met::Listed => "listed",
            Met::Stale => "stale",
        })
    }
}

impl fmt::Display for RuleWord {
    ghost output = { λ r. Some (rule_word r.0) };

    fn fmt<W: fmt::Write>(&self, f: &mut fmt::Formatter<W>) -> fmt::Result {
        f.write_str(match self.0 {
            Rule::Reset => "reset",
            Rule::HeldAgain => "held-again",
            Rule::BlockTaken => "block-taken",
            Rule::NoPlace => "no-place",
            Rule::NoChannel => "no-channel",
            Rule::BlockGiven => "block-given",
            Rule::NothingWaiting => "nothing-waiting",
            Rule::ListGiven => "list-given",
            Rule::Unknown => "unknown",
        })
    }
}

impl fmt::Display for BlockWords {
    ghost output = { λ b. Some (block_words b.0) };

    fn fmt<W: fmt::Write>(&self, f: &mut fmt::Formatter<W>) -> fmt::Result {
        let BlockName { channel, number } = self.0;
        write!(f, "{channel} {number}")
    }
}

impl fmt::Display for WentWords {
    ghost output = { λ w. Some (went_words w.0) };

    fn fmt<W: fmt::Write>(&self, f: &mut fmt::Formatter<W>) -> fmt::Result {
        match self.0 {
            None => Ok(()),
            Some(Went::Confirmed(block)) => write!(f, " confirmed {}", BlockWords(block)),
            Some(Went::Doubtful(block)) => write!(f, " doubtful {}", BlockWords(block)),
        }
    }
}

impl fmt::Display for DoubtWords {
    ghost output = { λ d. Some (doubt_words d.0) };

    fn fmt<W: fmt::Write>(&self, f: &mut fmt::Formatter<W>) -> fmt::Result {
        match self.0 {
            None => Ok(()),
            Some(Doubt { block, note }) => {
                write!(f, " doubtful {} note {note}", BlockWords(block))
            }
        }
    }
}

impl fmt::Display for RefusalWords {
    ghost output = { λ r. Some (refusal_words r.0) };

    fn fmt<W: fmt::Write>(&self, f: &mut fmt::Formatter<W>) -> fmt::Result {
        match self.0 {
            Refusal::Reader(fault) => write!(f, "fault {} count {}", fault.number(), fault.count),
            refusal => write!(f, "refused {}", refusal.number()),
        }
    }
}

impl fmt::Display for HexWords<'_> {
    ghost output = { λ h. Some (encode_upper h.0.now) };

    fn fmt<W: fmt::Write>(&self, f: &mut fmt::Formatter<W>) -> fmt::Result {
        for &byte in self.0 {
            write!(f, "{byte:02X}")?;
        }
        Ok(())
    }
}

impl fmt::Display for BytesWords<'_> {
    ghost output = { λ b. Some (bytes_words b.count b.buffer.now) };

    fn fmt<W: fmt::Write>(&self, f: &mut fmt::Formatter<W>) -> fmt::Result {
        let end = self.count.min(self.buffer.len());
        write!(f, "{}", HexWords(&self.buffer[..end]))
    }
}

impl fmt::Display for Told<'_> {
    ghost output = { λ t. Some (event_words t.event t.buffers.now) };

    fn fmt<W: fmt::Write>(&self, f: &mut fmt::Formatter<W>) -> fmt::Result {
        match self.event {
            Event::Sent(sending, count) => { write!(f, "{sending} sent {}", self.wire(count)) }
            Event::Down(cause, doubt) => {
                write!(f, "down cause {}{}", cause.number(), DoubtWords(doubt))
            }
            Event::Met(met) => write!(f, "{met}"),
            Event::Confirmed(block) => write!(f, "confirmed {}", BlockWords(block)),
            Event::Answered(rule, went, count) => {
                write!(
                    f,
                    "{}{} sent {}",
                    RuleWord(rule),
                    WentWords(went),
                    self.wire(count)
                )
            }
            Event::Number(number) => write!(f, "number {number}"),
            Event::WrittenOff => write!(f, "written off"),
            Event::Block(count) => write!(f, "block {}", self.block(count)),
            Event::Refused(refusal) => write!(f, "{}", RefusalWords(refusal)),
            Event::NoNote(note) => write!(f, "no note {note}"),
        }
    }
}

impl Told<'_> {
    ghost use Rattle.std.specs.Prelude.{◌≡◌};

    // The first bytes of the wire buffer.
    fn wire(&self, count: usize) -> BytesWords<'_>
        ensures count { result.count ≡ count }
        ensures buffer { result.buffer.now ≡ self.now.buffers.now.wire.items }
    {
        BytesWords {
            count,
            buffer: self.buffers.wire.as_slice(),
        }
    }

    // The first bytes of the block buffer.
    fn block(&self, count: usize) -> BytesWords<'_>
        ensures count { result.count ≡ count }
        ensures buffer { result.buffer.now ≡ self.now.buffers.now.block.items }
    {
        BytesWords {
            count,
            buffer: self.buffers.block.as_slice(),
        }
    }
}
