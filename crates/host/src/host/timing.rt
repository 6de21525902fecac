// The timer.
ghost use Rattle.std.specs.Prelude.{◌≡◌, ◌<◌, ◌≤◌, length, take, IfOk};
ghost use Rattle.wire.specs.Wire.{longest_wire};
ghost use Rattle.store.specs.Meaning.{Meaning};
ghost use Rattle.ends.specs.Limits.{most_repeats};
ghost use Rattle.ends.specs.Host.{repeats_of, sends_again, by_timer, timer_call};
ghost use Rattle.host.specs.Model.{host_of};
ghost use Rattle.law.specs.Runs.{naming, host_timer};
ghost use Rattle.law.specs.Sides.{HostLaw, unchanged};
ghost use Rattle.host.specs.Left.{Left, Leaves};
ghost use Rattle.host.specs.Answers.{repeat_length, timer_answer, timed_length, timed_word};
ghost use Rattle.host.specs.Side.{side, timer_length};

use super::opening::one_reset;
use super::{Host, Link, Sent, State};
use crate::answer::{Cause, Timed};
use crate::asked::Asked;
use ends::refusal::Refusal;
use store::Store;
use wire::writer::WIRE;

impl Host {
    /// Sends the frame on its way again, as kept, while its repeats are below the setting; else the link goes down.
    /// Refuses 16 where no frame is on its way, and 14.
    pub fn timer<O: Store>(&mut self, out: &mut O, wire: &mut [u8]) -> Result<Timed, Refusal>
        ensures answer { result ≡ timer_answer (host_of self.old.link) (length wire.old) }
        ensures bound { IfOk result (λ t. timed_length t ≤ length wire.old) }
        ensures named { (inn : Meaning) → timed_word result ≡ (timer_call (length wire.old) (host_of self.old.link) (O.Store.meaning out.old) inn).word }
        ensures after { (inn : Meaning) → Left (timer_call (length wire.old) (host_of self.old.link) (O.Store.meaning out.old) inn) self.old self.new (O.Store.meaning out.new) inn wire.old wire.new }
        ensures law { (inn : Meaning) → HostLaw (host_timer (length wire.old))
            (side self.old (O.Store.meaning out.old) inn)
            (side self.new (O.Store.meaning out.new) inn)
            (take (timer_length result) wire.new) (naming (timed_word result)) unchanged }
    {
        self.link.timer(out, wire)
    }
}

impl Link {
    // Sends it again.
    fn timer<O: Store>(&mut self, out: &mut O, wire: &mut [u8]) -> Result<Timed, Refusal>
        ensures answer { result ≡ timer_answer (host_of self.old) (length wire.old) }
        ensures bound { IfOk result (λ t. timed_length t ≤ length wire.old) }
        ensures named { (inn : Meaning) → timed_word result ≡ (timer_call (length wire.old) (host_of self.old) (O.Store.meaning out.old) inn).word }
        ensures after { (inn : Meaning) → Leaves (timer_call (length wire.old) (host_of self.old) (O.Store.meaning out.old) inn) (host_of self.new) (O.Store.meaning out.new) inn wire.old wire.new }
    {
        let (State::Opening { repeats } | State::OnItsWay(_, Sent { repeats, .. })) = &self.state
        else {
            return Err(Refusal::WrongState);
        };
        if wire.len() < WIRE {
            return Err(Refusal::ShortWire);
        }
        if *repeats >= self.setting {
            return Ok(Timed::Down(self.go_down(out, Cause::RepeatsUsed)));
        }
        Ok(Timed::Repeated(self.send_again(wire)))
    }

    // Writes the frame on its way once more, and answers the length of its wire form.
    fn send_again(&mut self, wire: &mut [u8]) -> usize
        requires wide { longest_wire ≤ length wire.old }
        requires below { repeats_of (host_of self.old).state < most_repeats }
        ensures value { result ≡ repeat_length (host_of self.old).state (host_of self.old) }
        ensures bound { result ≤ length wire.old }
        ensures after { (out inn : Meaning) → Leaves (by_timer sends_again (host_of self.old) out inn)
            (host_of self.new) out inn wire.old wire.new }
    {
        match &mut self.state {
            State::Opening { repeats } => {
                *repeats += 1;
                self.resets = one_reset(self.resets);
                Asked::GeneralPoll.write(true, self.generation, wire)
            }
            State::OnItsWay(asked, sent) => {
                sent.repeats += 1;
                asked.write(false, sent.toggle, wire)
            }
            State::Fresh | State::Idle | State::Down => 0,
        }
    }
}
