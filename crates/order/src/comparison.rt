// What came of a list of blocks.
ghost use Rattle.std.specs.Prelude.{◌≡◌, ◌+◌, ◌<◌, ◌↔◌, length, count_by, IsTrue, IfOk};
ghost use Rattle.order.specs.Blocks.{bytes_of};
ghost use Rattle.order.specs.Comparison.{copies, number_of, is_surplus, is_once, is_strange};
ghost use Rattle.order.specs.Comparison.{comparison, is_whole, CameAsExpected};

use crate::tally::Tally;
use std::alloc::{AllocError, Global};

/// What became of the blocks that were expected, and what else came.
#[derive(Clone, Copy, PartialEq, Eq, Debug)]
pub struct Comparison {
    /// Expected blocks that came, and no more often than they were expected.
    pub once: usize,
    /// Expected blocks that did not come.
    pub lost: usize,
    /// Blocks that came although all that were expected of them had come before.
    pub doubled: usize,
    /// Blocks that came and were not expected.
    pub strange: usize,
}

impl Comparison {
    ghost use Rattle.order.specs.Comparison.{is_whole};

    /// Whether each expected block came once, and nothing else did.
    pub fn is_whole(&self) -> bool
        ensures { result ≡ is_whole self.now }
    {
        self.lost == 0 && self.doubled == 0 && self.strange == 0
    }
}

/// Compares the blocks that were expected with those that were collected, byte for byte and in
/// whatever order. It takes no memory, and walks a whole list at each block: `compare_in` is for
/// long lists.
pub fn compare(expected: &[Vec<u8>], collected: &[Vec<u8>]) -> Comparison
    ensures counts { result ≡ comparison (bytes_of expected.now) (bytes_of collected.now) }
    ensures balance { length collected.now + result.lost ≡
        length expected.now + (result.doubled + result.strange) }
    ensures once { result.doubled ≡ 0 → result.once + result.lost ≡ length expected.now }
    ensures whole { IsTrue (is_whole result) ↔
        CameAsExpected (bytes_of expected.now) (bytes_of collected.now) }
{
    let came_once = come_once(expected, collected);
    let lost = surplus(expected, collected);
    let over = surplus(collected, expected);
    let strange = strangers(collected, expected);
    Comparison {
        once: came_once,
        lost,
        doubled: over - strange,
        strange,
    }
}

/// Compares as `compare` does, by tallies of both lists, so that no block asks for a walk over a
/// list. Only memory can be wanting.
pub fn compare_in(
    heap: Global,
    expected: &[Vec<u8>],
    collected: &[Vec<u8>],
) -> Result<Comparison, AllocError>
    ensures counts { IfOk result
        (λ c. c ≡ comparison (bytes_of expected.now) (bytes_of collected.now)) }
    ensures balance { IfOk result (λ c. length collected.now + c.lost ≡
        length expected.now + (c.doubled + c.strange)) }
    ensures once { IfOk result (λ c. c.doubled ≡ 0 → c.once + c.lost ≡ length expected.now) }
    ensures whole { IfOk result (λ c. IsTrue (is_whole c) ↔
        CameAsExpected (bytes_of expected.now) (bytes_of collected.now)) }
{
    let expected = Tally::of(heap, expected)?;
    let collected = Tally::of(heap, collected)?;
    let came_once = expected.came_once(&collected);
    let lost = expected.surplus(&collected);
    let over = collected.surplus(&expected);
    let strange = collected.strangers(&expected);
    Ok(Comparison {
        once: came_once,
        lost,
        doubled: over - strange,
        strange,
    })
}

// How many of the expected blocks came, and no more often than they were expected.
fn come_once(expected: &[Vec<u8>], collected: &[Vec<u8>]) -> usize
    ensures { let e = bytes_of expected.now in
        result ≡ number_of (is_once e (bytes_of collected.now)) e }
{
    let mut count = 0;
    for place in 0..expected.len() {
        if is_once(expected, collected, place) {
            count += 1;
        }
    }
    count
}

fn is_once(expected: &[Vec<u8>], collected: &[Vec<u8>], place: usize) -> bool
    requires { place < length expected.now }
    ensures { result ≡ is_once (bytes_of expected.now) (bytes_of collected.now) place }
{
    let block = expected[place].as_slice();
    let lost = is_surplus(expected, collected, place);
    !lost && copies(collected, block) <= copies(expected, block)
}

// How many of the blocks are one copy more than the others have.
fn surplus(blocks: &[Vec<u8>], others: &[Vec<u8>]) -> usize
    ensures { let b = bytes_of blocks.now in
        result ≡ number_of (is_surplus b (bytes_of others.now)) b }
{
    let mut count = 0;
    for place in 0..blocks.len() {
        if is_surplus(blocks, others, place) {
            count += 1;
        }
    }
    count
}

fn is_surplus(blocks: &[Vec<u8>], others: &[Vec<u8>], place: usize) -> bool
    requires { place < length blocks.now }
    ensures { result ≡ is_surplus (bytes_of blocks.now) (bytes_of others.now) place }
{
    let block = blocks[place].as_slice();
    copies(others, block) < copies(&blocks[..=place], block)
}

// How many of the blocks have no copy among the others.
fn strangers(blocks: &[Vec<u8>], others: &[Vec<u8>]) -> usize
    ensures { result ≡ count_by (is_strange (bytes_of others.now)) (bytes_of blocks.now) }
{
    blocks
        .iter()
        .filter(|block| copies(others, block) == 0)
        .count()
}

/// How many of the blocks have these bytes.
pub fn copies(blocks: &[Vec<u8>], block: &[u8]) -> usize
    ensures { result ≡ copies block.now (bytes_of blocks.now) }
{
    blocks
        .iter()
        .filter(|other| block == other.as_slice())
        .count()
}

#[cfg(test)]
mod tests {
    use super::*;
    use std::test::Fail;

    // Blocks of one byte each.
    fn blocks(heap: Global, bytes: &str) -> Result<Vec<Vec<u8>>, AllocError> {
        let mut blocks = Vec::new(heap);
        for byte in bytes.as_bytes() {
            blocks.push(Vec::from_slice(heap, &[*byte])?)?;
        }
        Ok(blocks)
    }

    // Expected, collected; once, lost, doubled, strange.
    #[test]
    fn numbers(rt: HostRuntime) -> Result<(), Fail> {
        let cases = [
            ("", "", [0, 0, 0, 0]),
            ("abcd", "abdc", [4, 0, 0, 0]),
            ("abcd", "abd", [3, 1, 0, 0]),
            ("abcd", "abcdc", [3, 0, 1, 0]),
            ("abcd", "abcdccc", [3, 0, 3, 0]),
            ("abcd", "axcdx", [3, 1, 0, 2]),
            ("aab", "ab", [2, 1, 0, 0]),
            ("aab", "aaab", [1, 0, 1, 0]),
            ("ab", "", [0, 2, 0, 0]),
        ];
        for (expected, collected, [once, lost, doubled, strange]) in cases {
            let heap = rt.alloc();
            let expected = blocks(heap, expected)?;
            let collected = blocks(heap, collected)?;
            let numbers = Comparison {
                once,
                lost,
                doubled,
                strange,
            };
            assert_eq!(rt; compare(expected.as_slice(), collected.as_slice()), numbers);
            let counted = compare_in(heap, expected.as_slice(), collected.as_slice())?;
            assert_eq!(rt; counted, numbers);
        }
        Ok(())
    }
}
