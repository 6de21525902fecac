// Hearing a byte.
ghost use Rattle.std.specs.Prelude.{◌≡◌, ℕ, []};
ghost use Rattle.frame.specs.Kinds.{tnc_suits};
ghost use Rattle.reader.specs.Read.{hears};
ghost use Rattle.ends.specs.Ear.{heard_by};
ghost use Rattle.ends.specs.Host.{hear_step};
ghost use Rattle.host.specs.Model.{host_of};
ghost use Rattle.law.specs.Runs.{naming, host_hear};
ghost use Rattle.law.specs.Sides.{HostLaw, unchanged};
ghost use Rattle.host.specs.Left.{Stands};
ghost use Rattle.host.specs.Rule.{answer_shown};
ghost use Rattle.host.specs.Answers.{heard_word, byte_word};
ghost use Rattle.host.specs.Hear.{answer_heard, hear_call, hear_answer};
ghost use Rattle.host.specs.Side.{side};

use super::{Host, Link};
use crate::answer::Heard;
use ends::refusal::Refusal;
use frame::frames::TncFrame;
use frame::head::Head;
use reader::state::Heard as Read;
use store::Store;

impl Host {
    /// Hears one byte; where a frame ends with it, follows the rule that the frame meets, and answers which.
    /// Refuses as the reader, and 9: the frame then counts as unheard.
    pub fn hear<O: Store, I: Store>(
        &mut self,
        out: &mut O,
        inn: &mut I,
        byte: u8,
    ) -> Result<Option<Heard>, Refusal>
        ensures answer { result ≡ hear_answer (hears (heard_by self.old.ear) byte) (host_of self.old.link) (O.Store.meaning out.old) (I.Store.meaning inn.old) }
        ensures named { byte_word result ≡ (hear_call (hears (heard_by self.old.ear) byte) (host_of self.old.link) (O.Store.meaning out.old) (I.Store.meaning inn.old)).word }
        ensures after { Stands (hear_call (hears (heard_by self.old.ear) byte) (host_of self.old.link) (O.Store.meaning out.old) (I.Store.meaning inn.old)) (host_of self.new.link) (O.Store.meaning out.new) (I.Store.meaning inn.new) }
        ensures ear { heard_by self.new.ear ≡ (hears (heard_by self.old.ear) byte).then }
        ensures law { (i : ℕ) → HostLaw (host_hear byte i)
            (side self.old (O.Store.meaning out.old) (I.Store.meaning inn.old))
            (side self.new (O.Store.meaning out.new) (I.Store.meaning inn.new))
            [] (naming (byte_word result)) unchanged }
    {
        self.hear_byte(out, inn, byte)
    }

    // Hears it.
    fn hear_byte<O: Store, I: Store>(
        &mut self,
        out: &mut O,
        inn: &mut I,
        byte: u8,
    ) -> Result<Option<Heard>, Refusal>
        ensures answer { result ≡ hear_answer (hears (heard_by self.old.ear) byte) (host_of self.old.link) (O.Store.meaning out.old) (I.Store.meaning inn.old) }
        ensures named { byte_word result ≡ (hear_call (hears (heard_by self.old.ear) byte) (host_of self.old.link) (O.Store.meaning out.old) (I.Store.meaning inn.old)).word }
        ensures after { Stands (hear_call (hears (heard_by self.old.ear) byte) (host_of self.old.link) (O.Store.meaning out.old) (I.Store.meaning inn.old)) (host_of self.new.link) (O.Store.meaning out.new) (I.Store.meaning inn.new) }
        ensures ear { heard_by self.new.ear ≡ (hears (heard_by self.old.ear) byte).then }
    {
        match self.ear.hear(byte)? {
            Read::More => Ok(None),
            Read::Frame => match self.ear.frame() {
                Some((head, frame)) => Ok(Some(self.link.hear(out, inn, head, frame)?)),
                None => Ok(None),
            },
        }
    }
}

impl Link {
    // Finds the rule that a frame meets, and then does what it says.
    fn hear<O: Store, I: Store>(
        &mut self,
        out: &mut O,
        inn: &mut I,
        head: Head,
        frame: TncFrame,
    ) -> Result<Heard, Refusal>
        requires { tnc_suits head.address frame }
        ensures answered { result ≡ answer_heard (host_of self.old) (O.Store.meaning out.old) (I.Store.meaning inn.old) (answer_shown head frame.entry) }
        ensures named { heard_word result ≡ (hear_step (host_of self.old) (O.Store.meaning out.old) (I.Store.meaning inn.old) (answer_shown head frame.entry)).word }
        ensures after { Stands (hear_step (host_of self.old) (O.Store.meaning out.old) (I.Store.meaning inn.old) (answer_shown head frame.entry)) (host_of self.new) (O.Store.meaning out.new) (I.Store.meaning inn.new) }
    {
        let rule = self.rule(head, frame);
        self.apply(out, inn, head.toggle, rule)
    }
}
