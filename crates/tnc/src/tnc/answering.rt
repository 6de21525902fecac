// The answer to a frame that is accepted.
ghost use Rattle.std.specs.Prelude.{◌≡◌};
ghost use Rattle.store.specs.Meaning.{plain};
ghost use Rattle.store.specs.Rules.{put_after};
ghost use Rattle.ends.specs.Host.{room_for};
ghost use Rattle.ends.specs.Tnc.{offer};
ghost use Rattle.tnc.specs.Request.{request_shown};
ghost use Rattle.tnc.specs.Answers.{offer_rule, take_rule, take_reply};
ghost use Rattle.tnc.specs.Answered.{AnswersOn, AnswersTo};

use super::request::{Load, Request};
use crate::answer::Rule;
use crate::held::{Given, WaitingList};
use ends::kept::KeptBlock;
use frame::head::Address;
use poll::channel::Channel;
use store::Store;

/// An answer, and the rule by which it is given.
#[derive(Drop)]
pub struct Answered {
    pub(crate) rule: Rule,
    pub(crate) given: Given,
}

impl Request<'_> {
    /// What the frame is answered; a block goes into the incoming store.
    pub(crate) fn answer<O: Store, I: Store>(self, out: &O, inn: &mut I) -> Answered
        ensures { AnswersTo (request_shown self.entry) (O.Store.meaning out.now) (I.Store.meaning inn.old) (I.Store.meaning inn.new) result }
    {
        match (self.load, self.head.address) {
            (Load::Poll, Address::General) => Answered {
                rule: Rule::ListGiven,
                given: Given::List(WaitingList::of(out)),
            },
            (Load::Poll, Address::Channel(channel)) => first(channel, out),
            (Load::Information(_), Address::General) => Answered {
                rule: Rule::NoChannel,
                given: Given::NoChannel,
            },
            (Load::Information(block), Address::Channel(channel)) => take(channel, block, inn),
            (Load::Command(_), address) => Answered {
                rule: Rule::Unknown,
                given: Given::Unknown(address),
            },
        }
    }
}

// A channel's poll: its first block is given.
fn first<O: Store>(channel: Channel, out: &O) -> Answered
    ensures { AnswersOn channel.number (offer_rule ((O.Store.meaning out.now).waiting channel.number)) (offer ((O.Store.meaning out.now).waiting channel.number)) result }
{
    match KeptBlock::first(channel, out) {
        Some(block) => Answered {
            rule: Rule::BlockGiven,
            given: Given::Block(channel, block),
        },
        None => Answered {
            rule: Rule::NothingWaiting,
            given: Given::Success(channel),
        },
    }
}

// A block for a channel goes into the incoming store.
fn take<I: Store>(channel: Channel, block: &[u8], inn: &mut I) -> Answered
    ensures answer { AnswersOn channel.number (take_rule (room_for (I.Store.meaning inn.old) channel.number (plain block.now))) (take_reply (room_for (I.Store.meaning inn.old) channel.number (plain block.now))) result }
    ensures inn { I.Store.meaning inn.new ≡ put_after (I.Store.meaning inn.old) channel.number (plain block.now) }
{
    match inn.put(channel.number(), block) {
        Ok(()) => Answered {
            rule: Rule::BlockTaken,
            given: Given::Success(channel),
        },
        Err(_) => Answered {
            rule: Rule::NoPlace,
            given: Given::NoPlace(channel),
        },
    }
}
