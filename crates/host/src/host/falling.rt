// Going down.
ghost use Rattle.std.specs.Prelude.{◌≡◌, MatchOption};
ghost use Rattle.store.specs.Meaning.{Block};
ghost use Rattle.ends.specs.Frames.{empty, holds};
ghost use Rattle.ends.specs.Blocks.{leaves};
ghost use Rattle.ends.specs.Host.{aboard, aboard_on, loss_word, fallen};
ghost use Rattle.host.specs.Model.{host_of};
ghost use Rattle.host.specs.Answers.{fall_by, doubt_word};

use super::{Link, State};
use crate::answer::{Cause, Fall};
use crate::asked::Asked;
use crate::note::DoubtNote;
use poll::channel::Channel;
use store::Store;

impl Link {
    // The channel of the block on its way, if there is one.
    pub(crate) fn aboard(&self) -> Option<Channel>
        ensures { MatchOption result (aboard (host_of self.now).state ≡ empty) (λ c. ((b : Block) × (aboard (host_of self.now).state ≡ holds b)) × (aboard_on (host_of self.now).state ≡ c.number)) }
    {
        match &self.state {
            State::OnItsWay(Asked::Block(channel, _), _) => Some(*channel),
            State::OnItsWay(Asked::GeneralPoll | Asked::ChannelPoll(_), _)
            | State::Fresh
            | State::Opening { .. }
            | State::Idle
            | State::Down => None,
        }
    }

    // The link goes down. A block on its way is doubtful: it is named, leaves its store, and counts as gone.
    pub(crate) fn go_down<O: Store>(&mut self, out: &mut O, cause: Cause) -> Fall
        ensures answer { result ≡ fall_by cause (loss_word (host_of self.old)) }
        ensures named { doubt_word result.doubt ≡ loss_word (host_of self.old) }
        ensures after { host_of self.new ≡ fallen (host_of self.old) }
        ensures out { O.Store.meaning out.new ≡ leaves (loss_word (host_of self.old)) (O.Store.meaning out.old) }
    {
        let lost = self.aboard();
        self.state = State::Down;
        match lost {
            Some(channel) => {
                let number = self.counts.count_gone(channel);
                let _ = out.drop_first(channel.number());
                Fall {
                    cause,
                    doubt: Some(DoubtNote::new(channel.number(), number)),
                }
            }
            None => Fall { cause, doubt: None },
        }
    }
}
