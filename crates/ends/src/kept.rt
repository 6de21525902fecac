// A block that an end keeps while it is on its way, beside its store. The methods stand in `keeping`, since their clauses
// name this type.
ghost use Rattle.std.specs.Prelude.{◌≡◌, ◌≤◌, length};
ghost use Rattle.frame.specs.Frame.{longest_block};

use frame::form::BLOCK;

pub mod keeping;

/// The bytes of a block on its way, as its store had them. (The kit's `ArrayVec` is not `Copy`, so
/// they are an array with its length.)
#[derive(Clone, Copy)]
pub struct KeptBlock {
    len: usize,
    bytes: [u8; BLOCK],
    ghost some: { 1 ≤ len },
    ghost short: { len ≤ longest_block },
    ghost whole: { length bytes ≡ longest_block },
}
