// What is counted at an end: submissions, and blocks that go.
ghost use Rattle.std.specs.Prelude.{◌≡◌, ◌≤◌, ◌-◌, true};
ghost use Rattle.store.specs.Meaning.{plain};
ghost use Rattle.ends.specs.Blocks.{changed, one_more_counted, submit_answer, submit_counts, submit_store};
ghost use Rattle.ends.specs.Counts.{none, count_of, submitted_of, gone_of};

use super::{Count, Counts};
use crate::refusal::Refusal;
use poll::channel::{CHANNELS, Channel};
use store::{Store, checks};

/// The highest number of a block on its channel.
pub const LAST_NUMBER: u32 = 4_294_967_295;

impl Counts {
    /// Nothing was submitted, and nothing is gone.
    pub fn new() -> Counts
        ensures submitted { submitted_of result ≡ none }
        ensures gone { gone_of result ≡ none }
    {
        let none = Count::default();
        Counts {
            by_channel: [none; CHANNELS],
        }
    }

    // The counts of a channel; none above the highest.
    fn of(&self, channel: u8) -> Count
        ensures { result ≡ count_of self.now channel }
    {
        self.by_channel
            .get(usize::from(channel))
            .copied()
            .unwrap_or_default()
    }

    /// How many blocks were submitted on a channel; 0 above the highest.
    pub fn submitted(&self, channel: u8) -> u32
        ensures { result ≡ submitted_of self.now channel }
    {
        self.of(channel).submitted
    }

    /// How many blocks of a channel are gone; 0 above the highest.
    pub fn gone(&self, channel: u8) -> u32
        ensures { result ≡ gone_of self.now channel }
    {
        self.of(channel).gone
    }

    /// How many blocks of a channel were submitted and are not gone; 0 above the highest.
    pub fn waiting(&self, channel: u8) -> u32
        ensures { result ≡ submitted_of self.now channel - gone_of self.now channel }
    {
        self.submitted(channel).saturating_sub(self.gone(channel))
    }

    /// One more block of the channel is gone; answers its number.
    pub fn count_gone(&mut self, channel: Channel) -> u32
        ensures value { result ≡ one_more_counted (gone_of self.old channel.number) }
        ensures bound { 1 ≤ result }
        ensures gone { gone_of self.new ≡ changed true channel.number one_more_counted (gone_of self.old) }
        ensures submitted { submitted_of self.new ≡ submitted_of self.old }
    {
        let count = &mut self.by_channel[usize::from(channel.number())];
        count.gone = count.gone.saturating_add(1);
        count.gone
    }

    /// Puts a block into the outgoing store, and answers its number on the channel. Refuses 10, 11, 15, then as the store.
    pub fn submit<S: Store>(
        &mut self,
        store: &mut S,
        channel: u8,
        block: &[u8],
    ) -> Result<u32, Refusal>
        ensures answer { result ≡ submit_answer (submitted_of self.old) (S.Store.meaning store.old) channel (plain block.now) }
        ensures submitted { submitted_of self.new ≡ submit_counts (submitted_of self.old) (S.Store.meaning store.old) channel (plain block.now) }
        ensures gone { gone_of self.new ≡ gone_of self.old }
        ensures store { S.Store.meaning store.new ≡ submit_store (submitted_of self.old) (S.Store.meaning store.old) channel (plain block.now) }
    {
        let place = usize::from(checks::channel(channel)?.number());
        checks::block(block)?;
        let count = &mut self.by_channel[place];
        if count.submitted == LAST_NUMBER {
            return Err(Refusal::NumbersUsed);
        }
        store.put(channel, block)?;
        count.submitted += 1;
        Ok(count.submitted)
    }
}
