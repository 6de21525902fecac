// What the strip does at each call.
ghost use Rattle.std.specs.Prelude.{◌≡◌, ◌==◌, [], ◌∷◌, ◌++◌, length, Ok, Err, MatchResult};
ghost use Rattle.std.specs.List.{find};
ghost use Rattle.store.specs.Meaning.{plain, empty};
ghost use Rattle.store.specs.Rules.{if_granted, put_answer, put_after, first_waiting, drop_answer, drop_after};
ghost use Rattle.store.specs.Calls.{StoreLaws};
ghost use Rattle.store.specs.Arrival.{without};
ghost use Rattle.strip.specs.Records.{limit_of, laid_over};
ghost use Rattle.strip.specs.Refusal.{check_answer};
ghost use Rattle.strip.specs.Walk.{placed, ahead};
ghost use Rattle.strip.specs.Shown.{area_of, records, shown, FirstOn};

use crate::bytes::write;
use crate::records::{Record, Records};
use crate::{HEAD, RECORD, Strip};
use poll::channel::LAST_CHANNEL;
use store::refusal::Refusal;
use store::{Store, checks};

impl<'a> Strip<'a> {
    /// An empty strip in an area that the check granted. The area stays as it is. The laws hold of every list of calls on it.
    pub fn new(area: &'a mut [u8]) -> Strip<'a>
        requires checked { check_answer (length area.old) ≡ Ok tt }
        ensures value { shown result ≡ empty (limit_of (length area.old)) }
        ensures area { area_of result ≡ area.old }
        ensures laws { StoreLaws }
    {
        Strip {
            area,
            used: 0,
            held: 0,
        }
    }

    // The records, first to last.
    fn records(&self) -> Records<'_>
        ensures { ahead result ≡ placed 0 (records self.now) }
    {
        Records {
            rest: self.area,
            at: 0,
            left: self.held,
        }
    }

    // Which record is a channel's first.
    fn find(&self, channel: u8) -> Option<Record>
        ensures { result ≡ find (λ r. r.channel == channel) (placed 0 (records self.now)) }
    {
        self.records().find(|record| record.channel == channel)
    }

    // The same, or why there is none. Refuses 10, 13. (The shelf has such a one over its places.)
    fn first_on(&self, channel: u8) -> Result<Record, Refusal>
        ensures { MatchResult result (FirstOn self.now channel) (λ e. first_waiting (shown self.now) channel ≡ Err e) }
    {
        checks::channel(channel)?;
        self.find(channel).ok_or(Refusal::NoneWaiting)
    }
}

impl<'a> Store for Strip<'a> {
    ghost meaning = { shown };

    // Beside the interface's promises: the record comes last, and no byte but its own is written.
    fn put(&mut self, channel: u8, block: &[u8]) -> Result<(), Refusal>
        ensures answer { result ≡ put_answer (shown self.old) channel (plain block.now) }
        ensures after { shown self.new ≡ put_after (shown self.old) channel (plain block.now) }
        ensures order { records self.new ≡ if_granted result (records self.old ++ record { channel = channel; block = plain block.now } ∷ []) (records self.old) }
        ensures area { area_of self.new ≡ laid_over (records self.new) (area_of self.old) }
    {
        checks::channel(channel)?;
        checks::block(block)?;
        if self.held == self.area.len() / RECORD {
            return Err(Refusal::Full);
        }
        write(self.area, self.used, channel, block);
        self.used += block.len() + HEAD;
        self.held += 1;
        Ok(())
    }

    fn copy_first(&self, channel: u8, buffer: &mut [u8]) -> Result<usize, Refusal> {
        checks::buffer(buffer)?;
        let record = self.first_on(channel)?;
        let start = record.at + HEAD;
        buffer[..record.len].copy_from_slice(&self.area[start..start + record.len]);
        Ok(record.len)
    }

    // Beside the interface's promises: the later records move down, and the bytes past the new end stay.
    fn drop_first(&mut self, channel: u8) -> Result<(), Refusal>
        ensures answer { result ≡ drop_answer (shown self.old) channel }
        ensures after { shown self.new ≡ drop_after (shown self.old) channel }
        ensures order { records self.new ≡ if_granted result (without channel (records self.old)) (records self.old) }
        ensures area { area_of self.new ≡ laid_over (records self.new) (area_of self.old) }
    {
        let record = self.first_on(channel)?;
        let next = record.at + HEAD + record.len;
        self.area.copy_within(next..self.used, record.at);
        self.used -= record.len + HEAD;
        self.held -= 1;
        Ok(())
    }

    fn count(&self, channel: u8) -> usize {
        if channel > LAST_CHANNEL {
            return 0;
        }
        self.records()
            .filter(|record| record.channel == channel)
            .count()
    }

    fn total(&self) -> usize {
        self.held
    }

    fn limit(&self) -> usize {
        self.area.len() / RECORD
    }
}
