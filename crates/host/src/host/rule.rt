// Which rule a frame meets. Finding it changes nothing.
ghost use Rattle.std.specs.Prelude.{◌≡◌, ◌==◌, if◌then◌else◌};
ghost use Rattle.frame.specs.Head.{byte_of};
ghost use Rattle.frame.specs.Kinds.{tnc_suits};
ghost use Rattle.store.specs.Meaning.{Meaning};
ghost use Rattle.ends.specs.Frames.{is_good};
ghost use Rattle.ends.specs.Host.{out_of_sequence_rule, stale, opened, listed, falls};
ghost use Rattle.host.specs.Model.{host_of};
ghost use Rattle.host.specs.Rule.{answer_shown, Carries, IsAny, IsNamed, IsRule};

use super::Link;
use super::State::{Down, Fresh, Idle, OnItsWay, Opening};
use crate::answer::Cause;
use crate::asked::Asked::{Block, ChannelPoll, GeneralPoll};
use frame::frames::TncFrame;
use frame::frames::TncFrame::{Failure, Information, List, Message, Success};
use frame::head::{Address, Head};
use poll::channel::Channel;
use poll::list::PollList;

/// The rule that a frame meets, with what the frame brings.
#[derive(Clone, Copy)]
pub enum Rule<'a> {
    /// Passed over.
    Stale,
    /// Passed over, and one spare less.
    SpareUsed,
    /// The reset's answer, with the channels to poll.
    Opened(PollList),
    /// The block on its way on this channel has arrived.
    Confirmed(Channel),
    BlockRefused,
    NothingThere,
    /// A polled block of this channel, for the incoming store.
    Polled(Channel, &'a [u8]),
    /// The general poll's answer, with the channels to poll.
    Listed(PollList),
    Falls(Cause),
}

impl Link {
    /// The rule that a frame meets in this state.
    pub(crate) fn rule<'a>(&self, head: Head, frame: TncFrame<'a>) -> Rule<'a>
        requires { tnc_suits head.address frame }
        ensures { (inn : Meaning) → IsRule (host_of self.now) inn (answer_shown head frame.entry) result }
    {
        match (&self.state, head.reset, frame) {
            (Fresh | Down, _, _) => Rule::Stale,
            (Opening { .. }, true, List(text)) if head.toggle == self.generation => opened(text),
            (Opening { .. }, _, _) => Rule::Stale,
            (Idle, _, _) => out_of_sequence(self.spare),
            (OnItsWay(_, _), true, _) => out_of_sequence(self.spare),
            (OnItsWay(_, sent), false, _) if head.toggle != sent.toggle => {
                out_of_sequence(self.spare)
            }
            (OnItsWay(Block(channel, _), _), false, Success | Message(_))
                if is_for(head, *channel) => { Rule::Confirmed(*channel) }
            (OnItsWay(Block(channel, _), _), false, Failure(_)) if is_for(head, *channel) => {
                Rule::BlockRefused
            }
            (OnItsWay(ChannelPoll(channel), _), false, Success) if is_for(head, *channel) => {
                Rule::NothingThere
            }
            (OnItsWay(ChannelPoll(channel), _), false, Information(block))
                if is_for(head, *channel) => {
                // (By `return`: the checker joins no arm that lends with arms that don't.)
                return Rule::Polled(*channel, block);
            }
            (OnItsWay(GeneralPoll, _), false, List(text)) => listed(text),
            (OnItsWay(_, _), false, _) => Rule::Falls(Cause::WrongAnswer),
        }
    }
}

// Whether a frame is for a channel.
fn is_for(head: Head, channel: Channel) -> bool
    ensures { result ≡ (byte_of head.address == channel.number) }
{
    head.address == Address::Channel(channel)
}

// The reset's answer: one whose list is not good is passed over.
fn opened(text: &[u8]) -> Rule<'static>
    ensures { (inn : Meaning) →
        IsNamed inn (if is_good text.now then opened else stale) (Carries text.now) result }
{
    match PollList::read(text) {
        Some(list) => Rule::Opened(list),
        None => Rule::Stale,
    }
}

// The general poll's answer.
fn listed(text: &[u8]) -> Rule<'static>
    ensures { (inn : Meaning) →
        IsNamed inn (if is_good text.now then listed else falls 3) (Carries text.now) result }
{
    match PollList::read(text) {
        Some(list) => Rule::Listed(list),
        None => Rule::Falls(Cause::WrongAnswer),
    }
}

// A frame out of sequence, while spare lasts.
fn out_of_sequence(spare: u16) -> Rule<'static>
    ensures { (inn : Meaning) → IsNamed inn (out_of_sequence_rule spare) IsAny result }
{
    if spare == 0 {
        Rule::Falls(Cause::SpareUsed)
    } else {
        Rule::SpareUsed
    }
}
