// How often each block stands in a list, counted in one walk over the list.
ghost use Rattle.std.specs.Prelude.{◌≡◌, ℕ, ◌<◌, List, length, slice_index, count_by, IfOk};
ghost use Rattle.order.specs.Blocks.{bytes_of};
ghost use Rattle.order.specs.Comparison.{copies, number_of, is_surplus, is_once, is_strange};
ghost use Rattle.order.specs.Tally.{met_in, rank_at};

use std::alloc::{AllocError, Global};
use std::collections::BTreeMap;

/// A list of blocks, with how often each stands in it.
#[derive(Drop)]
pub(crate) struct Tally<'a> {
    blocks: &'a [Vec<u8>],
    times: BTreeMap<&'a [u8], usize>,
    // At each place, which copy of its block stands there, from 1.
    ranks: Vec<usize>,
    ghost counted: { (block : List ℕ) → met_in times block ≡ copies block (bytes_of blocks.now) },
    ghost as_many: { length ranks.items ≡ length blocks.now },
    ghost ranked: { (k : ℕ) → k < length ranks.items →
        slice_index ranks.items k ≡ rank_at (bytes_of blocks.now) k },
}

impl<'a> Tally<'a> {
    /// Of these blocks. Only memory can be wanting.
    pub(crate) fn of(heap: Global, blocks: &'a [Vec<u8>]) -> Result<Tally<'a>, AllocError>
        ensures { IfOk result (λ t. t.blocks.now ≡ blocks.now) }
    {
        let mut times = BTreeMap::new(heap);
        let mut ranks = Vec::new(heap);
        for block in blocks {
            let rank = met(&times, block.as_slice()) + 1;
            times.insert(block.as_slice(), rank)?;
            ranks.push(rank)?;
        }
        Ok(Tally {
            blocks,
            times,
            ranks,
        })
    }

    // How many of the blocks have these bytes.
    fn copies(&self, block: &'a [u8]) -> usize
        ensures { result ≡ copies block.now (bytes_of self.now.blocks.now) }
    {
        met(&self.times, block)
    }

    /// How many of the blocks are one copy more than the others have.
    pub(crate) fn surplus(&self, others: &Tally<'a>) -> usize
        ensures { let b = bytes_of self.now.blocks.now in
            result ≡ number_of (is_surplus b (bytes_of others.now.blocks.now)) b }
    {
        let mut count = 0;
        for place in 0..self.blocks.len() {
            if self.is_surplus(others, place) {
                count += 1;
            }
        }
        count
    }

    fn is_surplus(&self, others: &Tally<'a>, place: usize) -> bool
        requires { place < length self.now.blocks.now }
        ensures { result ≡ is_surplus (bytes_of self.now.blocks.now)
            (bytes_of others.now.blocks.now) place }
    {
        others.copies(self.blocks[place].as_slice()) < self.ranks[place]
    }

    /// How many of these blocks came, and no more often than they were expected.
    pub(crate) fn came_once(&self, collected: &Tally<'a>) -> usize
        ensures { let e = bytes_of self.now.blocks.now in
            result ≡ number_of (is_once e (bytes_of collected.now.blocks.now)) e }
    {
        let mut count = 0;
        for place in 0..self.blocks.len() {
            if self.is_once(collected, place) {
                count += 1;
            }
        }
        count
    }

    fn is_once(&self, collected: &Tally<'a>, place: usize) -> bool
        requires { place < length self.now.blocks.now }
        ensures { result ≡ is_once (bytes_of self.now.blocks.now)
            (bytes_of collected.now.blocks.now) place }
    {
        let block = self.blocks[place].as_slice();
        let lost = self.is_surplus(collected, place);
        !lost && collected.copies(block) <= self.copies(block)
    }

    /// How many of the blocks have no copy among the others.
    pub(crate) fn strangers(&self, others: &Tally<'a>) -> usize
        ensures { result ≡ count_by (is_strange (bytes_of others.now.blocks.now))
            (bytes_of self.now.blocks.now) }
    {
        let mut count = 0;
        for block in self.blocks {
            if others.copies(block.as_slice()) == 0 {
                count += 1;
            }
        }
        count
    }
}

// How often a block was met.
fn met<'a>(times: &BTreeMap<&'a [u8], usize>, block: &'a [u8]) -> usize
    ensures { result ≡ met_in times.now block.now }
{
    times.get(&block).copied().unwrap_or(0)
}
