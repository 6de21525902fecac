// Opening the link.
ghost use Rattle.std.specs.Prelude.{◌≡◌, ◌≤◌, length, take, IfOk};
ghost use Rattle.std.specs.Result.{result_unwrap_or};
ghost use Rattle.store.specs.Meaning.{Meaning};
ghost use Rattle.ends.specs.Host.{one_reset_more, open_call};
ghost use Rattle.host.specs.Model.{host_of};
ghost use Rattle.law.specs.Runs.{host_open};
ghost use Rattle.law.specs.Sides.{HostLaw, unchanged};
ghost use Rattle.host.specs.Left.{Left, Leaves};
ghost use Rattle.host.specs.Answers.{open_answer};
ghost use Rattle.host.specs.Side.{side};

use super::{Host, Link, State};
use crate::asked::Asked;
use ends::refusal::Refusal;
use poll::list::PollList;
use wire::writer::WIRE;

/// How many resets of a generation are counted: as many as spare can tell, and one more.
const MOST_RESETS: u32 = 65_536;

impl Host {
    /// Sends the flagged general poll, from fresh or down. Refuses 16, 14.
    pub fn open(&mut self, wire: &mut [u8]) -> Result<usize, Refusal>
        ensures answer { result ≡ open_answer (host_of self.old.link) (length wire.old) }
        ensures bound { IfOk result (λ n. n ≤ length wire.old) }
        ensures after { (out inn : Meaning) → Left (open_call (length wire.old) (host_of self.old.link) out inn) self.old self.new out inn wire.old wire.new }
        ensures law { (out inn : Meaning) → HostLaw (host_open (length wire.old))
            (side self.old out inn)
            (side self.new out inn)
            (take (result_unwrap_or result 0) wire.new) unchanged unchanged }
    {
        self.link.open(wire)
    }
}

impl Link {
    // Sends it.
    fn open(&mut self, wire: &mut [u8]) -> Result<usize, Refusal>
        ensures answer { result ≡ open_answer (host_of self.old) (length wire.old) }
        ensures bound { IfOk result (λ n. n ≤ length wire.old) }
        ensures after { (out inn : Meaning) → Leaves (open_call (length wire.old) (host_of self.old) out inn) (host_of self.new) out inn wire.old wire.new }
    {
        match self.state {
            State::Opening { .. } | State::Idle | State::OnItsWay(_, _) => {
                return Err(Refusal::WrongState);
            }
            State::Fresh | State::Down => {}
        }
        if wire.len() < WIRE {
            return Err(Refusal::ShortWire);
        }
        self.list = PollList::empty();
        self.resets = one_reset(self.resets);
        self.state = State::Opening { repeats: 0 };
        Ok(Asked::GeneralPoll.write(true, self.generation, wire))
    }
}

/// The count of resets once one more is sent.
pub(crate) fn one_reset(resets: u32) -> u32
    ensures { result ≡ one_reset_more resets }
{
    resets.saturating_add(1).min(MOST_RESETS)
}
