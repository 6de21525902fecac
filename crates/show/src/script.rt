// What the line does to each frame, in the order in which they are written; after the last, all
// come clear. It is the same at each run.

/// What becomes of one frame on its way.
#[derive(Clone, Copy, PartialEq, Eq)]
pub enum Fate {
    /// It comes as it was sent.
    Clear,
    /// Bytes that start no frame come before it.
    Noise,
    /// A start with a byte that is no channel comes before it.
    FalseStart,
    /// One bit of it is turned.
    Damaged,
    /// Its first half comes, and no more.
    Cut,
    Lost,
    /// It comes right before the next frame on its line.
    Late,
    /// It comes twice.
    Twice,
}

impl Fate {
    /// What is told of it, after what was sent.
    pub fn words(self) -> &'static str {
        match self {
            Fate::Clear => "",
            Fate::Noise => " Noise comes before it.",
            Fate::FalseStart => " A false start comes before it.",
            Fate::Damaged => " A bit of it is turned.",
            Fate::Cut => " Only its first half comes.",
            Fate::Lost => " It is lost.",
            Fate::Late => " It is late.",
            Fate::Twice => " It comes twice.",
        }
    }
}

/// The frames of the terminal.
pub const TO_MODEM: [Fate; 15] = [
    Fate::Lost,
    Fate::Noise,
    Fate::FalseStart,
    Fate::Damaged,
    Fate::Clear,
    Fate::Clear,
    Fate::Clear,
    Fate::Noise,
    Fate::Lost,
    Fate::Lost,
    Fate::Lost,
    Fate::Lost,
    Fate::Cut,
    Fate::Clear,
    Fate::Twice,
];

/// The frames of the modem.
pub const TO_TERMINAL: [Fate; 10] = [
    Fate::Clear,
    Fate::Noise,
    Fate::Lost,
    Fate::Twice,
    Fate::Late,
    Fate::Clear,
    Fate::FalseStart,
    Fate::Clear,
    Fate::Lost,
    Fate::Damaged,
];

/// The frames of the modem after the terminal's farewell is submitted.
pub const AFTER_FAREWELL: [Fate; 4] = [Fate::Lost; 4];
