// What follows the code byte of a frame, and which payloads that can carry.
ghost use Rattle.std.specs.Prelude.{◌≡◌, MatchBool};
ghost use Rattle.frame.specs.Frame.{form_of, Carries};
ghost use Rattle.frame.specs.Kinds.{Holds};

/// The longest text that a frame carries, without its closing 00.
pub const TEXT: usize = 255;

/// The longest counted payload.
pub const BLOCK: usize = 256;

/// Which way a frame goes: from the terminal or from the modem.
#[derive(Clone, Copy, PartialEq, Eq, Debug)]
pub enum Direction {
    FromHost,
    FromTnc,
}

/// What follows a code byte: nothing, a text closed by 00, or a count and as many bytes.
#[derive(Clone, Copy)]
pub enum Form {
    Bare,
    Text,
    Counted,
}

impl Form {
    // Of two things, a direction and a code: so no `From`.
    /// The form of a code's frames; none where the direction does not know the code.
    pub fn of(direction: Direction, code: u8) -> Option<Form>
        ensures { result ≡ form_of direction code }
    {
        match (direction, code) {
            (Direction::FromHost, 0..=1) => Some(Form::Counted),
            (Direction::FromHost, _) => None,
            (Direction::FromTnc, 0) => Some(Form::Bare),
            (Direction::FromTnc, 1..=5) => Some(Form::Text),
            (Direction::FromTnc, 6..=7) => Some(Form::Counted),
            (Direction::FromTnc, _) => None,
        }
    }

    /// Whether a frame of this form can carry the payload.
    pub fn carries(self, payload: &[u8]) -> bool
        ensures { MatchBool result (Carries self payload.now) (Carries self payload.now → ⊥) }
    {
        let n = payload.len();
        match self {
            Form::Bare => n == 0,
            Form::Text => n <= TEXT && !payload.contains(&0),
            Form::Counted => n >= 1 && n <= BLOCK,
        }
    }

    /// The payload that the bytes after a code byte carry; none where they carry none.
    #[inline(always)]
    pub(crate) fn payload<'a>(self, rest: &'a [u8]) -> Option<&'a [u8]>
        ensures { Holds self rest.now result }
    {
        let payload = match (self, rest) {
            (Form::Bare, _) => rest,
            (Form::Text, [text @ .., 0]) => text,
            (Form::Counted, [count, block @ ..]) if block.len() == usize::from(*count) + 1 => block,
            (Form::Text | Form::Counted, _) => return None,
        };
        self.carries(payload).then_some(payload)
    }
}
