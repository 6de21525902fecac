// Poll lists: the list that a modem writes, and the list left to poll that a terminal reads from it.
// The methods stand in `lists`, since their clauses name these types. Each is an array with its
// length: lists are copied, and the kit's `ArrayVec` is not `Copy`. A type for both, to which an
// item is pushed, writes the length to memory at each item, and reading a list takes longer.
ghost use Rattle.std.specs.Prelude.{◌≤◌};
ghost use Rattle.poll.specs.Channel.{channels as channel_count};

use crate::channel::{CHANNELS, Channel};

pub mod lists;

/// The channels that are left to poll, first to last: those from `next` on, below `len`.
#[derive(Clone, Copy, Debug)]
pub struct PollList {
    channels: [Channel; CHANNELS],
    next: usize,
    len: usize,
    ghost left: { next ≤ len },
    ghost few: { len ≤ channel_count },
}

/// A poll list as it is written: listed values, ascending.
#[derive(Clone, Copy, Debug)]
pub struct ListText {
    values: [u8; CHANNELS],
    len: usize,
    ghost few: { len ≤ channel_count },
}
