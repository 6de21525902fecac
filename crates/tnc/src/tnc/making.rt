// How a TNC is made, and what it is asked.
ghost use Rattle.std.specs.Prelude.{◌≡◌, ◌-◌, ℕ};
ghost use Rattle.reader.specs.Read.{fresh};
ghost use Rattle.ends.specs.Ear.{heard_by};
ghost use Rattle.ends.specs.Tnc.{new_tnc};
ghost use Rattle.store.specs.Meaning.{empty};
ghost use Rattle.law.specs.Runs.{Limits, begin};
ghost use Rattle.law.specs.Sides.{tnc_side};
ghost use Rattle.tnc.specs.Model.{tnc_of};
ghost use Rattle.tnc.specs.Side.{side};

use super::{Link, Tnc};
use ends::counts::Counts;
use ends::ear::Ear;
use frame::form::Direction;

impl Tnc {
    /// A TNC that has heard nothing.
    pub fn new() -> Tnc
        ensures link { tnc_of result.link ≡ new_tnc }
        ensures ear { heard_by result.ear ≡ fresh Direction.FromHost }
        ensures begins { (setting : ℕ) (l : Limits) → tnc_side (begin setting l) ≡ side result (empty l.tnc_out) (empty l.tnc_in) }
    {
        Tnc {
            ear: Ear::new(Direction::FromHost),
            link: Link {
                held: None,
                counts: Counts::new(),
            },
        }
    }

    /// What the TNC hears with, for whoever watches the line: it shows the body that passed with the last byte.
    pub fn ear(&self) -> &Ear
        ensures { result.now ≡ self.now.ear }
    {
        &self.ear
    }

    /// Whether a reset was heard. No frame but a reset is accepted before.
    pub fn is_ready(&self) -> bool
        ensures { result ≡ (tnc_of self.now.link).ready }
    {
        self.link.held.is_some()
    }

    /// How many blocks were submitted on a channel.
    pub fn submitted(&self, channel: u8) -> u32
        ensures { result ≡ (tnc_of self.now.link).submitted channel }
    {
        self.link.counts.submitted(channel)
    }

    /// How many blocks of a channel are gone, confirmed or doubtful.
    pub fn gone(&self, channel: u8) -> u32
        ensures { result ≡ (tnc_of self.now.link).gone channel }
    {
        self.link.counts.gone(channel)
    }

    /// How many blocks of a channel were submitted and are not gone.
    pub fn waiting(&self, channel: u8) -> u32
        ensures { result ≡ (tnc_of self.now.link).submitted channel - (tnc_of self.now.link).gone channel }
    {
        self.link.counts.waiting(channel)
    }
}
