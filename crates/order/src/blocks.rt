// The blocks that an order is sent in.
ghost use Rattle.std.specs.Prelude.{◌≡◌, length, IfOk};
ghost use Rattle.order.specs.Blocks.{blocks_of, bytes_of, Whole, Blocks};

use frame::form::BLOCK;
use std::alloc::{AllocError, Global};

/// How many blocks a text has. One after the other they are the text.
pub fn block_count(text: &[u8]) -> usize
    ensures value { result ≡ length (blocks_of text.now) }
    ensures whole { Whole text.now }
{
    text.len().div_ceil(BLOCK)
}

/// The block of that number, from 0, of 1 to 256 bytes; none where the text has no byte there.
pub fn block(text: &[u8], number: usize) -> Option<&[u8]>
    ensures { Blocks text.now number result }
{
    let n = text.len();
    if number >= n.div_ceil(BLOCK) {
        return None;
    }
    text[BLOCK * number..].chunks(BLOCK).next()
}

/// All blocks of a text, in order. Only memory can be wanting.
pub fn blocks(heap: Global, text: &[u8]) -> Result<Vec<Vec<u8>>, AllocError>
    ensures { IfOk result (λ v. bytes_of v.items ≡ blocks_of text.now) }
{
    let mut blocks = Vec::new(heap);
    while let Some(bytes) = block(text, blocks.len()) {
        blocks.push(Vec::from_slice(heap, bytes)?)?;
    }
    Ok(blocks)
}
