// What the shelf does at each call.
ghost use Rattle.std.specs.Prelude.{◌≡◌, ◌≤◌, ◌==◌, length, Err, MatchResult};
ghost use Rattle.std.specs.List.{position};
ghost use Rattle.frame.specs.Frame.{longest_block};
ghost use Rattle.store.specs.Meaning.{plain, empty};
ghost use Rattle.store.specs.Calls.{StoreLaws};
ghost use Rattle.store.specs.Rules.{first_waiting};
ghost use Rattle.store.specs.Arrival.{IsFirst};
ghost use Rattle.shelf.specs.Size.{place_count};
ghost use Rattle.shelf.specs.Shown.{block_of, entry, blank, entries, shown};

use crate::{PLACES, Place, Shelf};
use arrayvec::ArrayVec;
use frame::form::BLOCK;
use poll::channel::{Channel, LAST_CHANNEL};
use store::refusal::Refusal;
use store::{Store, checks};

/// What the shelf's memory holds where it has no block: zeros on channel 0, which no call shows.
impl Default for Place {
    ghost is_default = { λ p. entry p ≡ blank };

    fn default() -> Place {
        Place {
            channel: Channel::new(0).unwrap(),
            len: BLOCK,
            bytes: [0; BLOCK],
        }
    }
}

impl Place {
    // A place that holds the block.
    fn with(channel: Channel, block: &[u8]) -> Place
        requires some { 1 ≤ length block.now }
        requires short { length block.now ≤ longest_block }
        ensures { entry result ≡ record { channel = channel.number; block = plain block.now } }
    {
        let len = block.len();
        let mut bytes = [0; BLOCK];
        bytes[..len].copy_from_slice(block);
        Place {
            channel,
            len,
            bytes,
        }
    }

    // Its block.
    fn block(&self) -> &[u8]
        ensures { result.now ≡ block_of self.now }
    {
        &self.bytes[..self.len]
    }
}

impl Shelf {
    /// An empty shelf. The laws hold of every list of calls on it.
    pub fn new() -> Shelf
        ensures value { shown result ≡ empty place_count }
        ensures laws { StoreLaws }
    {
        Shelf {
            places: ArrayVec::new(),
        }
    }

    // Which place has a channel's first block.
    fn index_of(&self, channel: Channel) -> Option<usize>
        ensures { result ≡ position (λ p. p.channel.number == channel.number) self.now.places.items }
    {
        self.places
            .iter()
            .position(|place| place.channel == channel)
    }

    // The same by the channel's number. Refuses 10, 13. (The strip has such a one over its records; one for both would be told
    // the search, and be no shorter.)
    fn first_on(&self, channel: u8) -> Result<usize, Refusal>
        ensures { MatchResult result (IsFirst channel (entries self.now)) (λ e. first_waiting (shown self.now) channel ≡ Err e) }
    {
        let channel = checks::channel(channel)?;
        self.index_of(channel).ok_or(Refusal::NoneWaiting)
    }
}

impl Store for Shelf {
    ghost meaning = { shown };

    fn put(&mut self, channel: u8, block: &[u8]) -> Result<(), Refusal> {
        let channel = checks::channel(channel)?;
        checks::block(block)?;
        if self.places.is_full() {
            return Err(Refusal::Full);
        }
        self.places.push(Place::with(channel, block));
        Ok(())
    }

    fn copy_first(&self, channel: u8, buffer: &mut [u8]) -> Result<usize, Refusal> {
        checks::buffer(buffer)?;
        let i = self.first_on(channel)?;
        let block = self.places[i].block();
        buffer[..block.len()].copy_from_slice(block);
        Ok(block.len())
    }

    fn drop_first(&mut self, channel: u8) -> Result<(), Refusal> {
        let i = self.first_on(channel)?;
        self.places.as_mut_slice().copy_within(i + 1.., i);
        self.places.truncate(self.places.len() - 1);
        Ok(())
    }

    fn count(&self, channel: u8) -> usize {
        if channel > LAST_CHANNEL {
            return 0;
        }
        self.places
            .iter()
            .filter(|place| place.channel.number() == channel)
            .count()
    }

    fn total(&self) -> usize {
        self.places.len()
    }

    fn limit(&self) -> usize {
        PLACES
    }
}
