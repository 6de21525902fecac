// Who is told what each call of a list did.
ghost use Rattle.std.specs.Prelude.{ℕ, List, Option};
ghost use Rattle.host.specs.declared.note.DoubtNote.{DoubtNote};
ghost use Rattle.link.specs.declared.event.Event.{Event};

use crate::event::Event;
use host::note::DoubtNote;

/// Is told of each call, and has the doubt notes. No note is lost: one that comes is in what the
/// observer is told, by value, and one for a submission once more is given by value; `Event` is not
/// `Drop`, so neither the observer nor who plays the list can let it fall. Who plays the list
/// writes none off.
pub trait Observer {
    /// What giving a note makes of it.
    ghost gives: { Self → Option DoubtNote → Self → Type 0 };

    /// What being told makes of it: of the call, and of the wire buffer and the block buffer
    /// after it.
    ghost sees: { Self → Event → List ℕ → List ℕ → Self → Type 0 };

    fn note(&mut self) -> Option<DoubtNote>
        ensures { gives self.old result self.new };

    fn observe(&mut self, event: Event, wire: &[u8], block: &[u8])
        ensures { sees self.old event.entry wire.now block.now self.new };
}
