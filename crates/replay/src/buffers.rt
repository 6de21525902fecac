// The buffers that calls are given.
ghost use Rattle.std.specs.Prelude.{◌≡◌, is_ok, if◌then◌else◌, IfOk, min};
ghost use Rattle.wire.specs.Wire.{longest_wire};
ghost use Rattle.frame.specs.Frame.{longest_block};
ghost use Rattle.replay.specs.Buffers.{zeros, resized};

use frame::form::BLOCK;
use std::alloc::{AllocError, Global};
use wire::writer::WIRE;

/// A wire and a block buffer. No call makes anything of more bytes than it needs, so a longer buffer is made as long as the
/// shortest that is not refused.
#[derive(Drop)]
pub struct Buffers {
    pub wire: Vec<u8>,
    pub block: Vec<u8>,
}

impl Buffers {
    /// As long as calls need them.
    pub fn new(alloc: Global) -> Result<Buffers, AllocError>
        ensures wire { IfOk result (λ b. b.wire.items ≡ zeros longest_wire) }
        ensures block { IfOk result (λ b. b.block.items ≡ zeros longest_block) }
    {
        Ok(Buffers {
            wire: vec![in alloc; 0; WIRE]?,
            block: vec![in alloc; 0; BLOCK]?,
        })
    }

    /// Later calls are given a wire buffer of so many bytes.
    pub fn set_wire(&mut self, length: u64) -> Result<(), AllocError>
        ensures wire { self.new.wire.items ≡ (if is_ok result
            then resized (min length longest_wire) self.old.wire.items else self.old.wire.items) }
        ensures block { self.new.block ≡ self.old.block }
    {
        self.wire.resize(at_most(length, WIRE), 0)
    }

    /// Later calls are given a block buffer of so many bytes.
    pub fn set_block(&mut self, length: u64) -> Result<(), AllocError>
        ensures block { self.new.block.items ≡ (if is_ok result
            then resized (min length longest_block) self.old.block.items else self.old.block.items) }
        ensures wire { self.new.wire ≡ self.old.wire }
    {
        self.block.resize(at_most(length, BLOCK), 0)
    }
}

/// A length as a number of bytes, but no more than so many.
pub fn at_most(length: u64, most: usize) -> usize
    ensures { result ≡ min length most }
{
    match usize::try_from(length) {
        Ok(length) => length.min(most),
        Err(_) => most,
    }
}

/// A number as a byte, or the highest byte.
pub fn byte(number: u64) -> u8
    ensures { result ≡ min number 255 }
{
    match u8::try_from(number) {
        Ok(byte) => byte,
        Err(_) => u8::MAX,
    }
}
