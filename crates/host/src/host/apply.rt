// What each rule does that a frame can meet.
ghost use Rattle.std.specs.Prelude.{◌≡◌, Ok};
ghost use Rattle.poll.specs.List.{polled};
ghost use Rattle.store.specs.Meaning.{Meaning};
ghost use Rattle.ends.specs.Blocks.{silent};
ghost use Rattle.ends.specs.Host.{lowered, opened_spare, opened_with, repeats_of, taken};
ghost use Rattle.host.specs.Model.{host_of};
ghost use Rattle.host.specs.Rule.{Confirms, Applies};

use super::rule::Rule;
use super::{Link, Sent, State};
use crate::answer::Heard;
use ends::name::BlockName;
use ends::refusal::Refusal;
use poll::channel::Channel;
use poll::list::PollList;
use store::Store;

/// The highest spare, which no frame lowers.
const LAST_SPARE: u16 = 65_535;

impl Link {
    /// Does what the rule says; the toggle is that of the frame.
    pub(crate) fn apply<O: Store, I: Store>(
        &mut self,
        out: &mut O,
        inn: &mut I,
        toggle: bool,
        rule: Rule,
    ) -> Result<Heard, Refusal>
        requires { Confirms rule (host_of self.old).state }
        ensures { Applies rule.entry toggle
            (host_of self.old) (O.meaning out.old) (I.meaning inn.old)
            (host_of self.new) (O.meaning out.new) (I.meaning inn.new) result }
    {
        match rule {
            Rule::Stale => Ok(Heard::Stale),
            Rule::SpareUsed => {
                self.spare = lower(self.spare);
                Ok(Heard::Stale)
            }
            Rule::Opened(list) => {
                self.opened(toggle, list);
                Ok(Heard::Opened)
            }
            Rule::Confirmed(channel) => Ok(Heard::Confirmed(self.confirm(out, toggle, channel))),
            Rule::BlockRefused => {
                self.take(toggle, true);
                Ok(Heard::BlockRefused)
            }
            Rule::NothingThere => {
                self.take(toggle, false);
                Ok(Heard::NothingThere)
            }
            Rule::Polled(channel, block) => self.receive(inn, toggle, channel, block),
            Rule::Listed(list) => {
                self.list = list;
                self.take(toggle, false);
                Ok(Heard::Listed)
            }
            Rule::Falls(cause) => Ok(Heard::Down(self.go_down(out, cause))),
        }
    }

    // The link is open.
    fn opened(&mut self, toggle: bool, list: PollList)
        ensures { host_of self.new ≡ opened_with (host_of self.old) (polled list) toggle }
    {
        self.state = State::Idle;
        self.generation = !self.generation;
        self.last = toggle;
        self.spare = spare_after(self.resets);
        self.resets = 0;
        self.list = list;
        self.refused = false;
    }

    // The block on its way has arrived: it leaves its store, and counts as gone.
    fn confirm<O: Store>(&mut self, out: &mut O, toggle: bool, channel: Channel) -> BlockName
        requires { Confirms (Rule.Confirmed channel) (host_of self.old).state }
        ensures { (inn : Meaning) → Applies (Rule.Confirmed channel) toggle
            (host_of self.old) (O.meaning out.old) inn
            (host_of self.new) (O.meaning out.new) inn (Ok (Heard.Confirmed result)) }
    {
        self.take(toggle, false);
        let number = self.counts.count_gone(channel);
        let _ = out.drop_first(channel.number());
        BlockName {
            channel: channel.number(),
            number,
        }
    }

    // A polled block goes into the incoming store; where that is at its limit, the frame counts as unheard.
    fn receive<I: Store>(
        &mut self,
        inn: &mut I,
        toggle: bool,
        channel: Channel,
        block: &[u8],
    ) -> Result<Heard, Refusal>
        ensures { (out : Meaning) → Applies (Rule.Polled channel block.entry) toggle
            (host_of self.old) out (I.meaning inn.old)
            (host_of self.new) out (I.meaning inn.new) result }
    {
        if inn.put(channel.number(), block).is_err() {
            return Err(Refusal::NoRoom);
        }
        self.take(toggle, false);
        Ok(Heard::Received)
    }

    // An answer is taken.
    fn take(&mut self, toggle: bool, refused: bool)
        ensures { host_of self.new ≡ taken (host_of self.old) (polled self.old.list) refused silent toggle }
    {
        self.spare = self.repeats();
        self.state = State::Idle;
        self.last = toggle;
        self.refused = refused;
    }

    // The repeats of the frame on its way.
    fn repeats(&self) -> u16
        ensures { result ≡ repeats_of (host_of self.now).state }
    {
        match &self.state {
            State::Opening { repeats } | State::OnItsWay(_, Sent { repeats, .. }) => {
                u16::from(*repeats)
            }
            State::Fresh | State::Idle | State::Down => 0,
        }
    }
}

// One spare less.
fn lower(spare: u16) -> u16
    ensures { result ≡ lowered spare }
{
    if spare == LAST_SPARE {
        spare
    } else {
        spare.saturating_sub(1)
    }
}

// Each reset but one may still be answered.
fn spare_after(resets: u32) -> u16
    ensures { result ≡ opened_spare resets }
{
    resets.saturating_sub(1).min(u32::from(LAST_SPARE)) as u16
}
