// Channels and listed values. The types stand alone, since the definitions in specs/ name them.
ghost use Rattle.std.specs.Prelude.{◌≡◌, ◌+◌, ◌<◌, ◌≤◌, MatchOption};
ghost use Rattle.poll.specs.Channel.{last_channel, channels};

/// The highest channel.
pub const LAST_CHANNEL: u8 = 63;

/// How many channels there are.
pub const CHANNELS: usize = 64;

/// A channel, 0 to 63.
#[derive(Clone, Copy, PartialEq, Eq, Debug)]
pub struct Channel {
    number: u8,
    ghost within: { number ≤ last_channel },
}

/// A listed value: a channel as a poll list has it, its number and 1. It is made and read by poll lists alone.
#[derive(Clone, Copy)]
pub struct Listed {
    value: u8,
    ghost low: { 1 ≤ value },
    ghost high: { value ≤ channels },
}

// Channel and listed value are two types, so that one is never taken for the other. Each `new` answers an Option, as that of
// `NonZero` does: each caller has a refusal of its own for a bad number. No `From` stands between them: it would be public,
// and they turn into each other in poll lists alone. `number` and `value` say which byte it is, which a `From` doesn't.
impl Channel {
    /// The channel of that number; none above 63.
    pub fn new(number: u8) -> Option<Channel>
        ensures { MatchOption result (last_channel < number) (λ c. (c.number ≡ number) × (number ≤ last_channel)) }
    {
        if number <= LAST_CHANNEL {
            Some(Channel { number })
        } else {
            None
        }
    }

    /// Its number, 0 to 63.
    pub fn number(self) -> u8
        ensures value { result ≡ self.number }
        ensures bound { result ≤ last_channel }
    {
        self.number
    }

    /// The channel of a place among the 64.
    pub(crate) fn at(place: usize) -> Channel
        requires { place < channels }
        ensures { result.number ≡ place }
    {
        Channel {
            number: place as u8,
        }
    }

    /// How a poll list names the channel.
    pub(crate) fn listed(self) -> Listed
        ensures { result.value ≡ self.number + 1 }
    {
        Listed {
            value: self.number + 1,
        }
    }
}

impl Listed {
    /// The listed value that a byte of a poll list is; none outside 1 to 64.
    pub(crate) fn new(value: u8) -> Option<Listed>
        ensures { MatchOption result (1 ≤ value → value ≤ channels → ⊥) (λ l. (l.value ≡ value) × (1 ≤ value) × (value ≤ channels)) }
    {
        if value >= 1 && value <= LAST_CHANNEL + 1 {
            Some(Listed { value })
        } else {
            None
        }
    }

    /// The byte of it.
    pub(crate) fn value(self) -> u8
        ensures { result ≡ self.value }
    {
        self.value
    }

    /// The channel that it names.
    pub(crate) fn channel(self) -> Channel
        ensures { result.number + 1 ≡ self.value }
    {
        Channel {
            number: self.value - 1,
        }
    }
}
