// Where a reader stands between two bytes.
ghost use Rattle.std.specs.Prelude.{◌≡◌};
ghost use Rattle.reader.specs.State.{part_of};

use frame::form::Form;

/// What the next byte of a frame is, after its channel byte.
#[derive(Clone, Copy)]
pub enum Part {
    Code,
    Count,
    /// A byte of a block, of which so many are to come.
    Block(u16),
    /// A byte of a text, or its 00.
    Text,
    /// The low byte of the checksum.
    Low,
    /// The high byte of the checksum; the low one is held here.
    High(u8),
}

#[derive(Clone, Copy)]
pub enum State {
    /// Between frames.
    Waiting,
    /// After one AA between frames.
    Marked,
    /// After AA AA, and any more AA: the channel byte is next.
    Started,
    /// In a frame.
    Inside(Part),
    /// In a frame, after an AA that is not yet a byte of it.
    Escaped(Part),
    /// Between frames, directly after a frame that passed.
    Passed,
}

/// What a byte brought. Two names and no `Option` of the body, which would keep the reader lent while its answer lives.
#[derive(Clone, Copy, PartialEq, Eq, Debug)]
pub enum Heard {
    More,
    /// A frame passed with this byte; the reader shows its body until the next.
    Frame,
}

// What follows a code byte.
impl From<Form> for Part {
    ghost from_gives = { λ form part. part ≡ part_of form };

    fn from(form: Form) -> Part {
        match form {
            Form::Bare => Part::Low,
            Form::Text => Part::Text,
            Form::Counted => Part::Count,
        }
    }
}
