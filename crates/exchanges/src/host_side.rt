// The host with its stores, and its answers in words.
use crate::both::{Counted, End, tell_refused};
use ends::name::BlockName;
use ends::refusal::Refusal;
use host::answer::{Fall, Heard, StepRule, Timed};
use host::host::{Host, State};
use host::note::DoubtNote;
use std::test::Fail;
use store::Store;

/// A host with its outgoing and its incoming store.
#[derive(Drop)]
pub struct HostSide<O, I> {
    pub host: Host,
    pub out: O,
    pub inn: I,
}

impl<O: Store + Drop, I: Store + Drop> HostSide<O, I> {
    /// A fresh host.
    pub(crate) fn new(repeats: u8, out: O, inn: I) -> Result<HostSide<O, I>, Fail> {
        match Host::new(repeats) {
            Ok(host) => Ok(HostSide { host, out, inn }),
            Err(_) => Err(Fail::new("no such host")),
        }
    }

    pub(crate) fn open(&mut self, told: &mut String, wire: &mut [u8]) -> Result<usize, Fail> {
        let sent = match self.host.open(wire) {
            Ok(sent) => {
                told.push_str("opens")?;
                sent
            }
            Err(refusal) => tell_refused(told, refusal)?,
        };
        self.tell_state(told)?;
        Ok(sent)
    }

    pub(crate) fn step(&mut self, told: &mut String, wire: &mut [u8]) -> Result<usize, Fail> {
        let sent = match self.host.step(&self.out, wire) {
            Ok(stepped) => {
                told.push_str(step_words(stepped.rule))?;
                stepped.sent
            }
            Err(refusal) => tell_refused(told, refusal)?,
        };
        self.tell_state(told)?;
        Ok(sent)
    }

    /// The timer. A note that it brings is written off.
    pub(crate) fn timer(&mut self, told: &mut String, wire: &mut [u8]) -> Result<usize, Fail> {
        let sent = match self.host.timer(&mut self.out, wire) {
            Ok(Timed::Repeated(sent)) => {
                told.push_str("repeated")?;
                sent
            }
            Ok(Timed::Down(fall)) => {
                tell_fall(told, fall)?;
                0
            }
            Err(refusal) => tell_refused(told, refusal)?,
        };
        self.tell_state(told)?;
        Ok(sent)
    }

    /// Hears bytes, of which none but the last may bring an answer.
    pub(crate) fn hear(&mut self, told: &mut String, bytes: &str) -> Result<usize, Fail> {
        let bytes = hex::decode(*told.allocator(), bytes.as_bytes())?;
        for byte in bytes.iter() {
            if !told.is_empty() {
                return Err(Fail::new("an answer before the last byte"));
            }
            match self.host.hear(&mut self.out, &mut self.inn, *byte) {
                Ok(None) => {}
                Ok(Some(heard)) => tell_heard(told, heard)?,
                Err(refusal) => {
                    tell_refused(told, refusal)?;
                }
            }
        }
        self.tell_state(told)?;
        Ok(0)
    }

    // Where the host stands.
    fn tell_state(&self, told: &mut String) -> Result<(), Fail> {
        match self.host.state() {
            State::Fresh => told.push_str("; fresh")?,
            State::Opening { repeats } => write!(told, "; opening {repeats}")?,
            State::Idle => told.push_str("; idle")?,
            State::OnItsWay(_, sent) => write!(told, "; on its way {}", sent.repeats)?,
            State::Down => told.push_str("; down")?,
        }
        let spare = self.host.spare();
        write!(told, ", spare {spare}")?;
        Ok(())
    }
}

impl<O: Store, I: Store> End for HostSide<O, I> {
    fn submit(&mut self, channel: u8, block: &[u8]) -> Result<u32, Refusal> {
        self.host.submit(&mut self.out, channel, block)
    }

    fn collect(&mut self, channel: u8, buffer: &mut [u8]) -> Result<usize, Refusal> {
        self.host.collect(&mut self.inn, channel, buffer)
    }

    fn counted(&self, channel: u8) -> Counted {
        Counted {
            submitted: self.host.submitted(channel),
            gone: self.host.gone(channel),
            waiting: self.host.waiting(channel),
            out: self.out.count(channel),
            inn: self.inn.count(channel),
        }
    }
}

fn step_words(rule: StepRule) -> &'static str {
    match rule {
        StepRule::PollAfterRefusal => "poll after refusal",
        StepRule::ChannelPoll => "channel poll",
        StepRule::Block => "block",
        StepRule::GeneralPoll => "general poll",
    }
}

fn tell_heard(told: &mut String, heard: Heard) -> Result<(), Fail> {
    match heard {
        Heard::Stale => told.push_str("stale")?,
        Heard::Opened => told.push_str("opened")?,
        Heard::Confirmed(BlockName { channel, number }) => {
            write!(told, "confirmed {channel}/{number}")?
        }
        Heard::BlockRefused => told.push_str("block refused")?,
        Heard::NothingThere => told.push_str("nothing there")?,
        Heard::Received => told.push_str("received")?,
        Heard::Listed => told.push_str("listed")?,
        Heard::Down(fall) => tell_fall(told, fall)?,
    }
    Ok(())
}

fn tell_fall(told: &mut String, fall: Fall) -> Result<(), Fail> {
    let Fall { cause, doubt } = fall;
    let doubtful = written_off(doubt);
    let cause = cause.number();
    write!(told, "down {cause}")?;
    if let Some(BlockName { channel, number }) = doubtful {
        write!(told, ", doubt {channel}/{number}")?;
    }
    Ok(())
}

// The block of a note, which is written off.
fn written_off(note: Option<DoubtNote>) -> Option<BlockName> {
    let note = note?;
    let name = BlockName {
        channel: note.channel(),
        number: note.number(),
    };
    note.write_off();
    Some(name)
}
