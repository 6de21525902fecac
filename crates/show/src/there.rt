// How many blocks wait to be collected.
ghost use Rattle.std.specs.Prelude.{◌≡◌};
ghost use Rattle.store.specs.Rules.{count_on};
ghost use Rattle.show.specs.There.{own_channel};

use crate::session::CHANNEL;
use link::pair::Stores;
use store::Store;

/// How many blocks wait at either end for its program, on the channel that all go by.
#[derive(Clone, Copy, PartialEq, Eq, Debug)]
pub struct There {
    pub at_modem: usize,
    pub at_terminal: usize,
}

impl There {
    /// In these stores.
    pub fn of<A: Store, B: Store, C: Store, D: Store>(stores: &Stores<A, B, C, D>) -> There
        ensures at_modem { result.at_modem ≡
            count_on (D.meaning stores.now.tnc_in) own_channel }
        ensures at_terminal { result.at_terminal ≡
            count_on (B.meaning stores.now.host_in) own_channel }
    {
        There {
            at_modem: stores.tnc_in.count(CHANNEL),
            at_terminal: stores.host_in.count(CHANNEL),
        }
    }
}
