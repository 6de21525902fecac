// The body of a frame as far as it was heard, and the checksum's register over it.
ghost use Rattle.std.specs.Prelude.{◌≡◌, ℕ, ◌<◌, ◌≤◌, List, [], ◌∷◌, ◌++◌, length, take};
ghost use Rattle.fcs.specs.Fcs.{register_of};
ghost use Rattle.frame.specs.Frame.{longest_body};

use crate::reader::BODY;
use std::marker::Model;

/// The bytes so far, and the register over them. An array and a length, and not the kit's `ArrayVec`: the `clear` of that
/// writes over the used part, and each byte of the line is to cost the same.
#[derive(Drop)]
pub struct Body {
    bytes: [u8; BODY],
    len: usize,
    register: u16,
}

impl Model for Body {
    ghost Value = { List ℕ };

    ghost view = { λ b. take b.len b.bytes };

    ghost invariant = { λ b. (b.len ≤ longest_body) × (b.register ≡ register_of (take b.len b.bytes)) };
}

impl Body {
    #[tactic(auto, unfolding(fcs::specs::Fcs::extended))]
    pub(crate) fn new() -> Body
        ensures { result ≡ [] }
    {
        Body {
            bytes: [0; BODY],
            len: 0,
            register: fcs::START,
        }
    }

    pub(crate) fn len(&self) -> usize
        ensures { result ≡ length self.now }
    {
        self.len
    }

    pub(crate) fn as_slice(&self) -> &[u8]
        ensures { result.now ≡ self.now }
    {
        &self.bytes[0..self.len]
    }

    pub(crate) fn register(&self) -> u16
        ensures { result ≡ register_of self.now }
    {
        self.register
    }

    pub(crate) fn push(&mut self, b: u8)
        requires { length self.old < longest_body }
        ensures { self.new ≡ self.old ++ b ∷ [] }
    {
        self.bytes[self.len] = b;
        self.len += 1;
        self.register = fcs::step(self.register, b);
    }

    #[tactic(auto, unfolding(fcs::specs::Fcs::extended))]
    pub(crate) fn clear(&mut self)
        ensures { self.new ≡ [] }
    {
        self.len = 0;
        self.register = fcs::START;
    }
}
