// What an ear does with a byte, and the body that it shows.
ghost use Rattle.std.specs.Prelude.{◌≡◌, IfSome, IsNone, MatchOption};
ghost use Rattle.std.specs.Option.{option_map};
ghost use Rattle.frame.specs.Frame.{IsReadAs};
ghost use Rattle.frame.specs.Head.{framed};
ghost use Rattle.reader.specs.Read.{fresh, passed, hears};
ghost use Rattle.ends.specs.Frames.{frame_read};
ghost use Rattle.ends.specs.Line.{FrameIn};
ghost use Rattle.ends.specs.Ear.{heard_by};

use super::Ear;
use frame::form::Direction;
use frame::frames::{Parsed, read};
use frame::head::Head;
use reader::fault::Fault;
use reader::reader::Reader;
use reader::state::Heard;

impl Ear {
    /// An ear that has heard nothing.
    pub fn new(direction: Direction) -> Ear
        ensures { heard_by result ≡ fresh direction }
    {
        Ear {
            reader: Reader::new(direction),
        }
    }

    /// Hears one byte.
    pub fn hear(&mut self, byte: u8) -> Result<Heard, Fault>
        ensures after { heard_by self.new ≡ (hears (heard_by self.old) byte).then }
        ensures answer { result ≡ (hears (heard_by self.old) byte).says }
        ensures direction { (heard_by self.new).direction ≡ (heard_by self.old).direction }
    {
        self.reader.hear(byte)
    }

    /// The body that passed with the last byte, if one did. It is that of a frame.
    pub fn body(&self) -> Option<&[u8]>
        ensures value { option_map (λ x. x.now) result ≡ passed (heard_by self.now) }
        ensures frame { IfSome result (λ b. ∥ FrameIn (heard_by self.now).direction b.now ∥₁) }
    {
        self.reader.body()
    }

    /// The head and the frame that passed with the last byte, if one did. An ear of the frame's own direction reads each.
    pub fn frame<'a, F: Parsed<'a>>(&'a self) -> Option<(Head, F)>
        ensures value { MatchOption (passed (heard_by self.now)) (IsNone result)
            (λ body. IsReadAs F.direction body (option_map (λ r. framed r.0 (F.shows r.1)) result)) }
        ensures suits { IfSome result (λ r. F.suits r.0.address r.1) }
        ensures whole { (heard_by self.now).direction ≡ F.direction
            → option_map (λ r. framed r.0 (F.shows r.1)) result
            ≡ option_map (frame_read F.direction) (passed (heard_by self.now)) }
    {
        read(self.body()?)
    }
}
