// What the TNC does at a frame, by the rule that the frame meets.
ghost use Rattle.std.specs.Prelude.{◌≡◌, ◌≤◌, length, IfOk};
ghost use Rattle.frame.specs.Frame.{general};
ghost use Rattle.wire.specs.Wire.{longest_wire};
ghost use Rattle.store.specs.Meaning.{Meaning};
ghost use Rattle.ends.specs.Frames.{answer_body};
ghost use Rattle.ends.specs.Sent.{over_wire, answer_length};
ghost use Rattle.ends.specs.Tnc.{accepts, resets, by_tnc, tnc_step};
ghost use Rattle.tnc.specs.Held.{given_answer};
ghost use Rattle.tnc.specs.Model.{tnc_of};
ghost use Rattle.tnc.specs.Gone.{tnc_held};
ghost use Rattle.tnc.specs.Left.{Left};
ghost use Rattle.tnc.specs.Request.{request_shown};
ghost use Rattle.tnc.specs.Answers.{heard_as, accept_rule_of, frame_answer};

use super::Link;
use super::answering::Answered;
use super::request::Request;
use crate::answer::{Heard, Rule};
use crate::held::{Given, Held, WaitingList};
use ends::refusal::Refusal;
use frame::head::Head;
use store::Store;

impl Link {
    /// Does at a frame what its rule says, and answers which.
    pub(crate) fn hear<O: Store, I: Store>(
        &mut self,
        out: &mut O,
        inn: &mut I,
        request: Request,
        wire: &mut [u8],
    ) -> Result<Heard, Refusal>
        requires { longest_wire ≤ length wire.old }
        ensures answer { result ≡ frame_answer (tnc_of self.old) (O.Store.meaning out.old) (I.Store.meaning inn.old) (request_shown request.entry) }
        ensures bound { IfOk result (λ h. h.sent ≤ length wire.old) }
        ensures after { Left (tnc_step (tnc_of self.old) (O.Store.meaning out.old) (I.Store.meaning inn.old) (request_shown request.entry)) (tnc_of self.new) (O.Store.meaning out.new) (I.Store.meaning inn.new) wire.old wire.new }
    {
        if request.head.reset {
            if !request.is_general_poll() {
                return Err(Refusal::FlaggedFrame);
            }
            return Ok(self.reset(out, request, wire));
        }
        match &self.held {
            None => Err(Refusal::BeforeReset),
            Some(held) if held.toggle == request.head.toggle => Ok(Heard {
                rule: Rule::HeldAgain,
                went: None,
                sent: held.write(wire),
            }),
            Some(_) => Ok(self.accept(out, inn, request, wire)),
        }
    }

    // The flagged general poll: the link begins anew, with the list of the channels that then wait.
    fn reset<O: Store>(&mut self, out: &mut O, request: Request, wire: &mut [u8]) -> Heard
        requires wide { longest_wire ≤ length wire.old }
        requires general { (request_shown request).channel ≡ general }
        ensures bound { result.sent ≤ length wire.old }
        ensures answer { (inn : Meaning) → result ≡ heard_as Rule.Reset (by_tnc resets (request_shown request.entry) (tnc_of self.old) (O.Store.meaning out.old) inn) }
        ensures after { (inn : Meaning) → Left (by_tnc resets (request_shown request.entry) (tnc_of self.old) (O.Store.meaning out.old) inn) (tnc_of self.new) (O.Store.meaning out.new) inn wire.old wire.new }
    {
        let went = self.doubt(out);
        let list = Given::List(WaitingList::of(out));
        Heard {
            rule: Rule::Reset,
            went,
            sent: self.give(list, request.head, wire),
        }
    }

    // A frame with another toggle: whatever was held has arrived.
    fn accept<O: Store, I: Store>(
        &mut self,
        out: &mut O,
        inn: &mut I,
        request: Request,
        wire: &mut [u8],
    ) -> Heard
        requires { longest_wire ≤ length wire.old }
        ensures bound { result.sent ≤ length wire.old }
        ensures answer { result ≡ heard_as (accept_rule_of (request_shown request.entry) (tnc_of self.old) (O.Store.meaning out.old) (I.Store.meaning inn.old)) (by_tnc accepts (request_shown request.entry) (tnc_of self.old) (O.Store.meaning out.old) (I.Store.meaning inn.old)) }
        ensures after { Left (by_tnc accepts (request_shown request.entry) (tnc_of self.old) (O.Store.meaning out.old) (I.Store.meaning inn.old)) (tnc_of self.new) (O.Store.meaning out.new) (I.Store.meaning inn.new) wire.old wire.new }
    {
        let went = self.confirm(out);
        let Answered { rule, given } = request.answer(out, inn);
        Heard {
            rule,
            went,
            sent: self.give(given, request.head, wire),
        }
    }

    // The answer is written, and held. It has the frame's reset flag and toggle.
    fn give(&mut self, given: Given, head: Head, wire: &mut [u8]) -> usize
        requires { longest_wire ≤ length wire.old }
        ensures value { result ≡ answer_length (given_answer given head.reset head.toggle) }
        ensures bound { result ≤ length wire.old }
        ensures wire { wire.new ≡ over_wire (answer_body (given_answer given head.reset head.toggle)) wire.old }
        ensures after { tnc_of self.new ≡ tnc_held (given_answer given head.reset head.toggle) (tnc_of self.old) }
    {
        let held = Held {
            given,
            reset: head.reset,
            toggle: head.toggle,
        };
        let n = held.write(wire);
        self.held = Some(held);
        n
    }
}
