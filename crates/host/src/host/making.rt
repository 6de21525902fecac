// How a host is made, and what it is asked.
ghost use Rattle.std.specs.Prelude.{◌≡◌, ◌<◌, ◌-◌, MatchResult};
ghost use Rattle.ends.specs.declared.refusal.Refusal.TheVariants.{ManyRepeats};
ghost use Rattle.ends.specs.Limits.{most_repeats};
ghost use Rattle.host.specs.Model.{host_of};
ghost use Rattle.host.specs.Side.{IsNew};

use super::{Host, Link, State};
use ends::counts::Counts;
use ends::ear::Ear;
use ends::refusal::Refusal;
use frame::form::Direction;
use poll::list::PollList;

/// The highest setting of repeats.
pub const MOST_REPEATS: u8 = 15;

impl Host {
    /// A fresh host that repeats a frame as often as set; refuses 18 above 15.
    pub fn new(repeats: u8) -> Result<Host, Refusal>
        ensures { MatchResult result (IsNew repeats)
            (λ e. (most_repeats < repeats) × (e ≡ ManyRepeats)) }
    {
        if repeats > MOST_REPEATS {
            return Err(Refusal::ManyRepeats);
        }
        Ok(Host {
            ear: Ear::new(Direction::FromTnc),
            link: Link {
                setting: repeats,
                state: State::Fresh,
                generation: false,
                last: false,
                spare: 0,
                resets: 0,
                list: PollList::empty(),
                refused: false,
                counts: Counts::new(),
            },
        })
    }

    /// What the host hears with, for whoever watches the line: it shows the body that passed with the last byte.
    pub fn ear(&self) -> &Ear
        ensures { result.now ≡ self.now.ear }
    {
        &self.ear
    }

    /// Where the host stands.
    pub fn state(&self) -> &State
        ensures { result.now ≡ self.now.link.state }
    {
        &self.link.state
    }

    /// How many frames out of sequence may still come before the link goes down.
    pub fn spare(&self) -> u16
        ensures { result ≡ (host_of self.now.link).spare }
    {
        self.link.spare
    }

    /// How many blocks were submitted on a channel.
    pub fn submitted(&self, channel: u8) -> u32
        ensures { result ≡ (host_of self.now.link).submitted channel }
    {
        self.link.counts.submitted(channel)
    }

    /// How many blocks of a channel are gone, confirmed or doubtful.
    pub fn gone(&self, channel: u8) -> u32
        ensures { result ≡ (host_of self.now.link).gone channel }
    {
        self.link.counts.gone(channel)
    }

    /// How many blocks of a channel were submitted and are not gone.
    pub fn waiting(&self, channel: u8) -> u32
        ensures { result ≡ (host_of self.now.link).submitted channel - (host_of self.now.link).gone channel }
    {
        self.link.counts.waiting(channel)
    }
}
