// The step: what is sent next.
ghost use Rattle.std.specs.Prelude.{◌≡◌, ◌≤◌, length, take, IfOk};
ghost use Rattle.store.specs.Meaning.{Meaning};
ghost use Rattle.ends.specs.Host.{step_call};
ghost use Rattle.host.specs.Model.{host_of};
ghost use Rattle.law.specs.Runs.{host_step};
ghost use Rattle.law.specs.Sides.{HostLaw, unchanged};
ghost use Rattle.host.specs.Left.{Left, Leaves};
ghost use Rattle.host.specs.Picked.{LowestIs, PickedBy};
ghost use Rattle.host.specs.Answers.{step_answer};
ghost use Rattle.host.specs.Side.{side, step_length};

use super::{Host, Link, Sent, State};
use crate::answer::{StepRule, Stepped};
use crate::asked::Asked;
use ends::kept::KeptBlock;
use ends::refusal::Refusal;
use poll::channel::{Channel, LAST_CHANNEL};
use store::Store;
use wire::writer::WIRE;

/// What is asked next, and by which rule.
#[derive(Clone, Copy)]
pub struct Picked {
    rule: StepRule,
    asked: Asked,
}

impl Host {
    /// Sends one frame, whose toggle is not that of the last answer taken. After an answer that refused a block it is a
    /// general poll; else, while channels are left on the list, a poll of the first of them, which then leaves it; else,
    /// where blocks wait, the first on the lowest channel; and else a general poll. Refuses 16 unless idle, and 14.
    pub fn step<O: Store>(&mut self, out: &O, wire: &mut [u8]) -> Result<Stepped, Refusal>
        ensures answer { result ≡ step_answer (host_of self.old.link) (O.Store.meaning out.now) (length wire.old) }
        ensures bound { IfOk result (λ s. s.sent ≤ length wire.old) }
        ensures after { (inn : Meaning) → Left (step_call (length wire.old) (host_of self.old.link) (O.Store.meaning out.now) inn) self.old self.new (O.Store.meaning out.now) inn wire.old wire.new }
        ensures law { (inn : Meaning) → HostLaw (host_step (length wire.old))
            (side self.old (O.Store.meaning out.now) inn)
            (side self.new (O.Store.meaning out.now) inn)
            (take (step_length result) wire.new) unchanged unchanged }
    {
        self.link.step(out, wire)
    }
}

impl Link {
    // Sends it.
    fn step<O: Store>(&mut self, out: &O, wire: &mut [u8]) -> Result<Stepped, Refusal>
        ensures answer { result ≡ step_answer (host_of self.old) (O.Store.meaning out.now) (length wire.old) }
        ensures bound { IfOk result (λ s. s.sent ≤ length wire.old) }
        ensures after { (inn : Meaning) → Leaves (step_call (length wire.old) (host_of self.old) (O.Store.meaning out.now) inn) (host_of self.new) (O.Store.meaning out.now) inn wire.old wire.new }
    {
        match self.state {
            State::Idle => {}
            State::Fresh | State::Opening { .. } | State::OnItsWay(_, _) | State::Down => {
                return Err(Refusal::WrongState);
            }
        }
        if wire.len() < WIRE {
            return Err(Refusal::ShortWire);
        }
        let Picked { rule, asked } = self.pick(out);
        if !self.refused {
            self.list.drop_first();
        }
        let toggle = !self.last;
        let sent = asked.write(false, toggle, wire);
        self.state = State::OnItsWay(asked, Sent { toggle, repeats: 0 });
        Ok(Stepped { rule, sent })
    }

    // The first that applies.
    fn pick<O: Store>(&self, out: &O) -> Picked
        ensures { PickedBy (host_of self.now) (O.Store.meaning out.now) result }
    {
        if self.refused {
            return Picked {
                rule: StepRule::PollAfterRefusal,
                asked: Asked::GeneralPoll,
            };
        }
        if let Some(channel) = self.list.first() {
            return Picked {
                rule: StepRule::ChannelPoll,
                asked: Asked::ChannelPoll(channel),
            };
        }
        match lowest(out) {
            Some(channel) => Picked {
                rule: StepRule::Block,
                asked: Asked::Block(channel, KeptBlock::first(channel, out).unwrap()),
            },
            None => Picked {
                rule: StepRule::GeneralPoll,
                asked: Asked::GeneralPoll,
            },
        }
    }
}

// The lowest channel that has a block.
fn lowest<O: Store>(out: &O) -> Option<Channel>
    ensures { LowestIs (O.Store.meaning out.now).waiting result }
{
    (0..LAST_CHANNEL + 1)
        .find(|number| out.count(*number) > 0)
        .and_then(Channel::new)
}
