// Hearing a byte.
ghost use Rattle.std.specs.Prelude.{◌≡◌, ◌≤◌, ℕ, take, cond, length, nat_lt, IfOk, IfSome};
ghost use Rattle.wire.specs.Wire.{longest_wire};
ghost use Rattle.reader.specs.Read.{hears};
ghost use Rattle.ends.specs.Ear.{heard_by};
ghost use Rattle.law.specs.Runs.{naming, tnc_hear};
ghost use Rattle.law.specs.Sides.{TncLaw, unchanged};
ghost use Rattle.tnc.specs.Model.{tnc_of};
ghost use Rattle.tnc.specs.Left.{Left};
ghost use Rattle.tnc.specs.Answers.{byte_word};
ghost use Rattle.tnc.specs.Hear.{hear_call, hear_answer};
ghost use Rattle.tnc.specs.Side.{side, hear_length};

use super::Tnc;
use super::request::Request;
use crate::answer::Heard;
use ends::refusal::Refusal;
use reader::state::Heard as Read;
use store::Store;
use wire::writer::WIRE;

impl Tnc {
    /// Hears one byte; where a frame ends with it, does what the frame's rule says, writes the answer, and answers which
    /// rule. Refuses 14, and the byte is unheard; as the reader; 7 and 8, and the frame leaves all as it was.
    pub fn hear<O: Store, I: Store>(
        &mut self,
        out: &mut O,
        inn: &mut I,
        byte: u8,
        wire: &mut [u8],
    ) -> Result<Option<Heard>, Refusal>
        ensures answer { result ≡ hear_answer (length wire.old) (hears (heard_by self.old.ear) byte) (tnc_of self.old.link) (O.Store.meaning out.old) (I.Store.meaning inn.old) }
        ensures bound { IfOk result (λ o. IfSome o (λ h. h.sent ≤ length wire.old)) }
        ensures named { byte_word result ≡ (hear_call (length wire.old) (hears (heard_by self.old.ear) byte) (tnc_of self.old.link) (O.Store.meaning out.old) (I.Store.meaning inn.old)).word }
        ensures after { Left (hear_call (length wire.old) (hears (heard_by self.old.ear) byte) (tnc_of self.old.link) (O.Store.meaning out.old) (I.Store.meaning inn.old)) (tnc_of self.new.link) (O.Store.meaning out.new) (I.Store.meaning inn.new) wire.old wire.new }
        ensures ear { heard_by self.new.ear ≡ cond (nat_lt (length wire.old) longest_wire) (heard_by self.old.ear) (hears (heard_by self.old.ear) byte).then }
        ensures law { (i : ℕ) → TncLaw (tnc_hear (length wire.old) byte i)
            (side self.old (O.Store.meaning out.old) (I.Store.meaning inn.old))
            (side self.new (O.Store.meaning out.new) (I.Store.meaning inn.new))
            (take (hear_length result) wire.new) (naming (byte_word result)) unchanged }
    {
        self.hear_byte(out, inn, byte, wire)
    }

    // Hears it.
    fn hear_byte<O: Store, I: Store>(
        &mut self,
        out: &mut O,
        inn: &mut I,
        byte: u8,
        wire: &mut [u8],
    ) -> Result<Option<Heard>, Refusal>
        ensures answer { result ≡ hear_answer (length wire.old) (hears (heard_by self.old.ear) byte) (tnc_of self.old.link) (O.Store.meaning out.old) (I.Store.meaning inn.old) }
        ensures bound { IfOk result (λ o. IfSome o (λ h. h.sent ≤ length wire.old)) }
        ensures named { byte_word result ≡ (hear_call (length wire.old) (hears (heard_by self.old.ear) byte) (tnc_of self.old.link) (O.Store.meaning out.old) (I.Store.meaning inn.old)).word }
        ensures after { Left (hear_call (length wire.old) (hears (heard_by self.old.ear) byte) (tnc_of self.old.link) (O.Store.meaning out.old) (I.Store.meaning inn.old)) (tnc_of self.new.link) (O.Store.meaning out.new) (I.Store.meaning inn.new) wire.old wire.new }
        ensures ear { heard_by self.new.ear ≡ cond (nat_lt (length wire.old) longest_wire) (heard_by self.old.ear) (hears (heard_by self.old.ear) byte).then }
    {
        if wire.len() < WIRE {
            return Err(Refusal::ShortWire);
        }
        match self.ear.hear(byte)? {
            Read::More => Ok(None),
            Read::Frame => match self.ear.frame() {
                Some((head, frame)) => {
                    let request = Request::of(head, frame);
                    self.link.hear(out, inn, request, wire).map(Some)
                }
                None => Ok(None),
            },
        }
    }
}
