// The block in the held answer, which goes once the TNC knows what became of it.
ghost use Rattle.std.specs.Prelude.{◌≡◌, MatchOption};
ghost use Rattle.store.specs.Meaning.{Block};
ghost use Rattle.ends.specs.Frames.{cargo_in, empty, holds};
ghost use Rattle.ends.specs.Named.{went_by};
ghost use Rattle.ends.specs.Tnc.{accepts, resets, tnc_word, out_after};
ghost use Rattle.tnc.specs.Model.{tnc_of};
ghost use Rattle.tnc.specs.Gone.{gone_name, tnc_gone};

use super::Link;
use crate::held::Given;
use ends::name::{BlockName, Went};
use poll::channel::Channel;
use store::Store;

impl Link {
    /// The block in the held answer has arrived, since the host goes on.
    pub(crate) fn confirm<O: Store>(&mut self, out: &mut O) -> Option<Went>
        ensures named { result ≡ went_by (tnc_word accepts (tnc_of self.old)) }
        ensures after { tnc_of self.new ≡ tnc_gone accepts (tnc_of self.old) }
        ensures out { O.Store.meaning out.new ≡ out_after accepts (tnc_of self.old) (O.Store.meaning out.old) }
    {
        self.let_go(out).map(Went::Confirmed)
    }

    /// The block in the held answer may have arrived: the host begins anew.
    pub(crate) fn doubt<O: Store>(&mut self, out: &mut O) -> Option<Went>
        ensures named { result ≡ went_by (tnc_word resets (tnc_of self.old)) }
        ensures after { tnc_of self.new ≡ tnc_gone resets (tnc_of self.old) }
        ensures out { O.Store.meaning out.new ≡ out_after resets (tnc_of self.old) (O.Store.meaning out.old) }
    {
        self.let_go(out).map(Went::Doubtful)
    }

    // It leaves its store, and counts as gone.
    fn let_go<O: Store>(&mut self, out: &mut O) -> Option<BlockName>
        ensures value { result ≡ gone_name (tnc_of self.old) }
        ensures after { tnc_of self.new ≡ tnc_gone accepts (tnc_of self.old) }
        ensures out { O.Store.meaning out.new ≡ out_after accepts (tnc_of self.old) (O.Store.meaning out.old) }
    {
        let channel = self.given_on()?;
        let number = self.counts.count_gone(channel);
        let _ = out.drop_first(channel.number());
        Some(BlockName {
            channel: channel.number(),
            number,
        })
    }

    // Its channel, if there is one.
    fn given_on(&self) -> Option<Channel>
        ensures { MatchOption result (cargo_in (tnc_of self.now).held.reply ≡ empty) (λ c. ((b : Block) × (cargo_in (tnc_of self.now).held.reply ≡ holds b)) × ((tnc_of self.now).held.channel ≡ c.number)) }
    {
        match &self.held {
            None => None,
            Some(held) => match &held.given {
                Given::Block(channel, _) => Some(*channel),
                Given::Success(_)
                | Given::NoPlace(_)
                | Given::NoChannel
                | Given::Unknown(_)
                | Given::List(_) => None,
            },
        }
    }
}
