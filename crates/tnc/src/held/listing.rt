// The list of the channels that wait.
ghost use Rattle.std.specs.Prelude.{◌≡◌};
ghost use Rattle.poll.specs.Channel.{channels};
ghost use Rattle.poll.specs.List.{text_of};
ghost use Rattle.ends.specs.Tnc.{list_for, waiting_to};

use super::WaitingList;
use poll::channel::{CHANNELS, LAST_CHANNEL};
use poll::list::ListText;
use store::Store;

impl WaitingList {
    /// The list of a store.
    pub(crate) fn of<O: Store>(out: &O) -> WaitingList
        ensures { text_of result.text ≡ list_for (O.Store.meaning out.now) }
    {
        WaitingList {
            text: ListText::of(&waiting(out)),
        }
    }

    /// The bytes that are written.
    pub(crate) fn bytes(&self) -> &[u8]
        ensures { result.now ≡ text_of self.now.text }
    {
        self.text.bytes()
    }
}

// Which channels have a block.
fn waiting<O: Store>(out: &O) -> [bool; CHANNELS]
    ensures { result ≡ waiting_to channels (O.Store.meaning out.now).waiting }
{
    let mut waiting = [false; CHANNELS];
    for channel in 0..LAST_CHANNEL + 1 {
        waiting[usize::from(channel)] = out.count(channel) > 0;
    }
    waiting
}
