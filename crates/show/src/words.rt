// The words for what the ends answer.
ghost use Rattle.std.specs.Prelude.{◌≡◌, Some};
ghost use Rattle.show.specs.Words.{block_words, cause_text, dropped_words, fall_words, heard_words};
ghost use Rattle.show.specs.Words.{met_words, refusal_text, refusal_words, rule_text, step_text, went_words};

use ends::name::Went;
use ends::refusal::Refusal;
use host::answer::{Cause, Fall, Heard, StepRule};
use order::words::Kind;
use std::fmt;
use store::refusal::Refusal as StoreRefusal;
use tnc::answer::{Heard as TncHeard, Rule};

/// Why an end refuses a call, with the number of the refusal.
#[derive(Clone, Copy)]
pub struct RefusalWords(pub Refusal);

/// Why a hear refuses: a fault of the reader is told with its count.
#[derive(Clone, Copy)]
pub struct DroppedWords(pub Refusal);

/// That the link went down: why, and which block was on its way.
#[derive(Clone, Copy)]
pub struct FallWords<'a>(pub &'a Fall);

/// The rule that a frame met at the terminal.
#[derive(Clone, Copy)]
pub struct HeardWords<'a>(pub &'a Heard);

/// The rule that a frame met at the modem, the block that left its store, and the length of the
/// answer.
#[derive(Clone, Copy)]
pub struct RuleWords(pub TncHeard);

// The block that left the modem's store.
#[derive(Clone, Copy)]
struct WentWords(Option<Went>);

// A block by its channel and number.
#[derive(Clone, Copy)]
struct BlockWords(u8, u32);

/// What a step sent.
pub fn step_text(rule: StepRule) -> &'static str
    ensures { result.now ≡ step_text rule }
{
    match rule {
        StepRule::PollAfterRefusal => "general poll after a refusal",
        StepRule::ChannelPoll => "poll of a channel",
        StepRule::Block => "block",
        StepRule::GeneralPoll => "general poll",
    }
}

// The rule that a frame met at the modem.
fn rule_text(rule: Rule) -> &'static str
    ensures { result.now ≡ rule_text rule }
{
    match rule {
        Rule::Reset => "reset",
        Rule::HeldAgain => "held again",
        Rule::BlockTaken => "block taken",
        Rule::NoPlace => "no place",
        Rule::NoChannel => "no channel",
        Rule::BlockGiven => "block given",
        Rule::NothingWaiting => "nothing waiting",
        Rule::ListGiven => "list given",
        Rule::Unknown => "unknown command",
    }
}

// Why the link went down.
fn cause_text(cause: Cause) -> &'static str
    ensures { result.now ≡ cause_text cause }
{
    match cause {
        Cause::RepeatsUsed => "the frame has had all its repeats",
        Cause::SpareUsed => "a frame out of sequence, and none could be expected",
        Cause::WrongAnswer => "an answer that does not answer the frame sent",
    }
}

// Why an end refuses.
fn refusal_text(refusal: Refusal) -> &'static str
    ensures { result.now ≡ refusal_text refusal }
{
    match refusal {
        Refusal::Reader(_) => "the reader dropped a frame",
        Refusal::Store(StoreRefusal::BadChannel) => "no such channel",
        Refusal::Store(StoreRefusal::BadLength) => "no block has this length",
        Refusal::Store(StoreRefusal::Full) => "the store is full",
        Refusal::Store(StoreRefusal::NoneWaiting) => "no block waits",
        Refusal::Store(StoreRefusal::ShortBuffer) => "the buffer is short",
        Refusal::FlaggedFrame => "a flagged frame that is no reset",
        Refusal::BeforeReset => "a frame before the first reset",
        Refusal::NoRoom => "no room for the block",
        Refusal::ShortWire => "the wire buffer is short",
        Refusal::NumbersUsed => "every number of the channel is used",
        Refusal::WrongState => "not in this state",
        Refusal::ManyRepeats => "more repeats than may be set",
    }
}

impl fmt::Display for RefusalWords {
    ghost output = { λ r. Some (refusal_words r.0) };

    fn fmt<W: fmt::Write>(&self, f: &mut fmt::Formatter<W>) -> fmt::Result {
        let number = self.0.number();
        write!(f, "refusal {number}: {}.", refusal_text(self.0))
    }
}

impl fmt::Display for DroppedWords {
    ghost output = { λ r. Some (dropped_words r.0) };

    fn fmt<W: fmt::Write>(&self, f: &mut fmt::Formatter<W>) -> fmt::Result {
        match self.0 {
            Refusal::Reader(fault) => write!(
                f,
                "fault {} after {}: {}. The frame is dropped.",
                fault.number(),
                Kind::Byte.of(usize::from(fault.count)),
                fault.reason
            ),
            refusal => write!(f, "{}", RefusalWords(refusal)),
        }
    }
}

impl fmt::Display for FallWords<'_> {
    ghost output = { λ f. Some (fall_words f.0.now) };

    fn fmt<W: fmt::Write>(&self, f: &mut fmt::Formatter<W>) -> fmt::Result {
        let cause = self.0.cause;
        let number = cause.number();
        let why = cause_text(cause);
        match &self.0.doubt {
            None => write!(f, "down, cause {number}: {why}. No block was on its way."),
            Some(note) => {
                let block = BlockWords(note.channel(), note.number());
                write!(
                    f,
                    "down, cause {number}: {why}. Its block {block} is doubtful."
                )
            }
        }
    }
}

impl fmt::Display for HeardWords<'_> {
    ghost output = { λ h. Some (heard_words h.0.now) };

    fn fmt<W: fmt::Write>(&self, f: &mut fmt::Formatter<W>) -> fmt::Result {
        match self.0 {
            Heard::Stale => f.write_str("stale."),
            Heard::Opened => f.write_str("opened."),
            Heard::Confirmed(block) => {
                let block = BlockWords(block.channel, block.number);
                write!(f, "confirmed: its block {block}.")
            }
            Heard::BlockRefused => f.write_str("block refused."),
            Heard::NothingThere => f.write_str("nothing there."),
            Heard::Received => f.write_str("received."),
            Heard::Listed => f.write_str("listed."),
            Heard::Down(fall) => write!(f, "{}", FallWords(fall)),
        }
    }
}

impl fmt::Display for RuleWords {
    ghost output = { λ r. Some (met_words r.0) };

    fn fmt<W: fmt::Write>(&self, f: &mut fmt::Formatter<W>) -> fmt::Result {
        let TncHeard { rule, went, sent } = self.0;
        let rule = rule_text(rule);
        write!(
            f,
            "{rule}.{} Answer: {}.",
            WentWords(went),
            Kind::Byte.of(sent)
        )
    }
}

impl fmt::Display for WentWords {
    ghost output = { λ w. Some (went_words w.0) };

    fn fmt<W: fmt::Write>(&self, f: &mut fmt::Formatter<W>) -> fmt::Result {
        match self.0 {
            None => Ok(()),
            Some(Went::Confirmed(block)) => {
                let block = BlockWords(block.channel, block.number);
                write!(f, " Its block {block} is confirmed.")
            }
            Some(Went::Doubtful(block)) => {
                let block = BlockWords(block.channel, block.number);
                write!(f, " Its block {block} is doubtful.")
            }
        }
    }
}

impl fmt::Display for BlockWords {
    ghost output = { λ b. Some (block_words b.0 b.1) };

    fn fmt<W: fmt::Write>(&self, f: &mut fmt::Formatter<W>) -> fmt::Result {
        let BlockWords(channel, number) = *self;
        write!(f, "({channel}, {number})")
    }
}
