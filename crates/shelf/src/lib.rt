// The shelf: a store of 16 places of its own. The types stand here, since the definitions in specs/ name them;
// what the shelf does at each call stands in `calls`.
#![tactic(auto)]

ghost use Rattle.std.specs.Prelude.{◌≡◌, ◌≤◌, length};
ghost use Rattle.frame.specs.Frame.{longest_block};

use arrayvec::ArrayVec;
use frame::form::BLOCK;
use poll::channel::Channel;

pub mod calls;

/// How many places the shelf has.
pub const PLACES: usize = 16;

/// A block on the shelf, and the channel that it waits on. (The kit's `ArrayVec` is not `Copy`, so
/// the bytes are an array with its length.)
#[derive(Clone, Copy)]
pub struct Place {
    channel: Channel,
    len: usize,
    bytes: [u8; BLOCK],
    ghost some: { 1 ≤ len },
    ghost short: { len ≤ longest_block },
    ghost whole: { length bytes ≡ longest_block },
}

/// The shelf: a store with places of its own, in order of arrival.
#[derive(Drop)]
pub struct Shelf {
    places: ArrayVec<Place, PLACES>,
}
