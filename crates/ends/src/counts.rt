// How many blocks of each channel were submitted at an end, and how many are gone. The methods stand in `counting`,
// since their clauses name this type.
ghost use Rattle.std.specs.Prelude.{◌≡◌, length};
ghost use Rattle.poll.specs.Channel.{channels};

use poll::channel::CHANNELS;

pub mod counting;

// The two counts of one channel. Confirmed and doubtful blocks are gone.
#[derive(Clone, Copy, Default)]
struct Count {
    submitted: u32,
    gone: u32,
}

/// Two counts for each channel.
#[derive(Clone, Copy)]
pub struct Counts {
    by_channel: [Count; CHANNELS],
    ghost whole: { length by_channel ≡ channels },
}
