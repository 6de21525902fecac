// The TNC with its stores, and its answers in words.
use crate::both::{Counted, End, tell_refused};
use ends::name::{BlockName, Went};
use ends::refusal::Refusal;
use std::test::Fail;
use store::Store;
use tnc::answer::{Heard, Rule};
use tnc::tnc::Tnc;

/// A TNC with its outgoing and its incoming store.
#[derive(Drop)]
pub struct TncSide<O, I> {
    pub tnc: Tnc,
    pub out: O,
    pub inn: I,
}

impl<O: Store, I: Store> TncSide<O, I> {
    /// A TNC that has heard nothing.
    pub(crate) fn new(out: O, inn: I) -> TncSide<O, I> {
        TncSide {
            tnc: Tnc::new(),
            out,
            inn,
        }
    }

    /// Hears bytes, of which none but the last may bring an answer; how many bytes that has.
    pub(crate) fn hear(
        &mut self,
        told: &mut String,
        wire: &mut [u8],
        bytes: &str,
    ) -> Result<usize, Fail> {
        let bytes = hex::decode(*told.allocator(), bytes.as_bytes())?;
        let mut sent = 0;
        for byte in bytes.iter() {
            if !told.is_empty() {
                return Err(Fail::new("an answer before the last byte"));
            }
            match self.tnc.hear(&mut self.out, &mut self.inn, *byte, wire) {
                Ok(None) => {}
                Ok(Some(heard)) => {
                    tell_heard(told, heard)?;
                    sent = heard.sent;
                }
                Err(refusal) => sent = tell_refused(told, refusal)?,
            }
        }
        Ok(sent)
    }
}

impl<O: Store, I: Store> End for TncSide<O, I> {
    fn submit(&mut self, channel: u8, block: &[u8]) -> Result<u32, Refusal> {
        self.tnc.submit(&mut self.out, channel, block)
    }

    fn collect(&mut self, channel: u8, buffer: &mut [u8]) -> Result<usize, Refusal> {
        self.tnc.collect(&mut self.inn, channel, buffer)
    }

    fn counted(&self, channel: u8) -> Counted {
        Counted {
            submitted: self.tnc.submitted(channel),
            gone: self.tnc.gone(channel),
            waiting: self.tnc.waiting(channel),
            out: self.out.count(channel),
            inn: self.inn.count(channel),
        }
    }
}

fn rule_words(rule: Rule) -> &'static str {
    match rule {
        Rule::Reset => "reset",
        Rule::HeldAgain => "held again",
        Rule::BlockTaken => "block taken",
        Rule::NoPlace => "no place",
        Rule::NoChannel => "no channel",
        Rule::BlockGiven => "block given",
        Rule::NothingWaiting => "nothing waiting",
        Rule::ListGiven => "list given",
        Rule::Unknown => "unknown",
    }
}

fn tell_heard(told: &mut String, heard: Heard) -> Result<(), Fail> {
    told.push_str(rule_words(heard.rule))?;
    match heard.went {
        Some(Went::Confirmed(BlockName { channel, number })) => {
            write!(told, ", confirmed {channel}/{number}")?
        }
        Some(Went::Doubtful(BlockName { channel, number })) => {
            write!(told, ", doubtful {channel}/{number}")?
        }
        None => {}
    }
    Ok(())
}
