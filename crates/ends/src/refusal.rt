// What an end refuses: its own refusals, the reader's faults and the stores' refusals, in one type.
ghost use Rattle.std.specs.Prelude.{◌≡◌};
ghost use Rattle.ends.specs.declared.refusal.Refusal.TheVariants.{Reader, Store};
ghost use Rattle.ends.specs.Refusal.{refusal_number};

use reader::fault::Fault;
use store::refusal::Refusal as StoreRefusal;

/// Why an end refuses a call, or drops a frame.
#[derive(Clone, Copy, PartialEq, Eq, Debug)]
pub enum Refusal {
    /// The reader dropped a frame.
    Reader(Fault),
    /// A store refused, or would have refused, the call.
    Store(StoreRefusal),
    /// A flagged frame that is no general poll; it is dropped.
    FlaggedFrame,
    /// An unflagged frame before the first reset; it is dropped.
    BeforeReset,
    /// A poll's block in sequence while the incoming store is at its limit; it counts as unheard.
    NoRoom,
    /// The wire buffer is shorter than the longest wire form.
    ShortWire,
    /// Every number of the channel is used up.
    NumbersUsed,
    /// The call is not allowed in this state.
    WrongState,
    /// A setting of more than 15 repeats.
    ManyRepeats,
}

impl Refusal {
    /// The number of the refusal. It is no discriminant, since two cases carry the number of another's refusal.
    pub fn number(self) -> u8
        ensures { result ≡ refusal_number self }
    {
        match self {
            Refusal::Reader(fault) => fault.number(),
            Refusal::Store(refusal) => refusal.number(),
            Refusal::FlaggedFrame => 7,
            Refusal::BeforeReset => 8,
            Refusal::NoRoom => 9,
            Refusal::ShortWire => 14,
            Refusal::NumbersUsed => 15,
            Refusal::WrongState => 16,
            Refusal::ManyRepeats => 18,
        }
    }
}

impl From<Fault> for Refusal {
    ghost from_gives = { λ e r. r ≡ Reader e };

    fn from(e: Fault) -> Refusal {
        Refusal::Reader(e)
    }
}

impl From<StoreRefusal> for Refusal {
    ghost from_gives = { λ e r. r ≡ Store e };

    fn from(e: StoreRefusal) -> Refusal {
        Refusal::Store(e)
    }
}
