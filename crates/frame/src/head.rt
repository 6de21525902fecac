// The head of a frame: whom it is for, the reset flag and the toggle.
ghost use Rattle.std.specs.Prelude.{◌≡◌, MatchOption};
ghost use Rattle.frame.specs.Frame.{ChannelByte};
ghost use Rattle.frame.specs.Head.{byte_of, IsHeadOf};

use poll::channel::Channel;

/// The channel byte of the general poll.
pub const GENERAL: u8 = 0xff;

/// Whom a frame is for: one channel, or all of them, as the general poll. (No Option: `None` would read as no address.)
#[derive(Clone, Copy, PartialEq, Eq, Debug)]
pub enum Address {
    Channel(Channel),
    General,
}

/// The first two bytes of a frame but for its code.
#[derive(Clone, Copy, PartialEq, Eq, Debug)]
pub struct Head {
    pub address: Address,
    pub reset: bool,
    pub toggle: bool,
}

// Methods, and not `From` and `TryFrom`: `byte` says which byte, and whoever reads one has its own refusal for a bad one.
impl Address {
    /// The address that a channel byte names; none from 64 to 254.
    pub fn of(byte: u8) -> Option<Address>
        ensures { MatchOption result (ChannelByte byte → ⊥) (λ a. (byte_of a ≡ byte) × ChannelByte byte) }
    {
        match byte {
            GENERAL => Some(Address::General),
            _ => Channel::new(byte).map(Address::Channel),
        }
    }

    /// The channel byte.
    pub fn byte(self) -> u8
        ensures { result ≡ byte_of self }
    {
        match self {
            Address::Channel(channel) => channel.number(),
            Address::General => GENERAL,
        }
    }
}

impl Head {
    // The head that a channel byte and a code byte make; none where the one is no channel byte.
    #[inline(always)]
    pub(crate) fn of(channel: u8, code: u8) -> Option<Head>
        ensures { MatchOption result (ChannelByte channel → ⊥) (IsHeadOf channel code) }
    {
        Some(Head {
            address: Address::of(channel)?,
            reset: code & 0x40 != 0,
            toggle: code & 0x80 != 0,
        })
    }
}
