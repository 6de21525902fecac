// A store of either kind, for whoever learns only as it runs which it is.
ghost use Rattle.replay.specs.AnyStore.{meaning_of};

use shelf::Shelf;
use store::Store;
use store::refusal::Refusal;
use strip::Strip;

/// A shelf or a strip.
#[derive(Drop)]
pub enum AnyStore<'a> {
    Shelf(Shelf),
    Strip(Strip<'a>),
}

impl Store for AnyStore<'_> {
    ghost meaning = { meaning_of };

    fn put(&mut self, channel: u8, block: &[u8]) -> Result<(), Refusal> {
        match self {
            AnyStore::Shelf(shelf) => shelf.put(channel, block),
            AnyStore::Strip(strip) => strip.put(channel, block),
        }
    }

    fn copy_first(&self, channel: u8, buffer: &mut [u8]) -> Result<usize, Refusal> {
        match self {
            AnyStore::Shelf(shelf) => shelf.copy_first(channel, buffer),
            AnyStore::Strip(strip) => strip.copy_first(channel, buffer),
        }
    }

    fn drop_first(&mut self, channel: u8) -> Result<(), Refusal> {
        match self {
            AnyStore::Shelf(shelf) => shelf.drop_first(channel),
            AnyStore::Strip(strip) => strip.drop_first(channel),
        }
    }

    fn count(&self, channel: u8) -> usize {
        match self {
            AnyStore::Shelf(shelf) => shelf.count(channel),
            AnyStore::Strip(strip) => strip.count(channel),
        }
    }

    fn total(&self) -> usize {
        match self {
            AnyStore::Shelf(shelf) => shelf.total(),
            AnyStore::Strip(strip) => strip.total(),
        }
    }

    fn limit(&self) -> usize {
        match self {
            AnyStore::Shelf(shelf) => shelf.limit(),
            AnyStore::Strip(strip) => strip.limit(),
        }
    }
}
