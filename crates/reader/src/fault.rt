// What a reader refuses, as one value that passes up whole.
ghost use Rattle.std.specs.Prelude.{◌≡◌, Some};
ghost use Rattle.reader.specs.Fault.{fault_number, words_of};

use std::fmt;

/// The layer that found the fault. That is always the reader: what is above it hands its faults on as they are.
#[derive(Clone, Copy, PartialEq, Eq, Debug)]
pub enum Layer {
    Reader,
}

/// Why a frame is dropped.
#[derive(Clone, Copy, PartialEq, Eq, Debug)]
pub enum Reason {
    /// An AA inside a frame that neither 00 nor AA follows.
    StrayMark = 1,
    /// The channel byte is neither 0 to 63 nor FF.
    BadChannel = 2,
    /// The direction does not know the code.
    UnknownCode = 3,
    /// The 256th byte of a text is not 00.
    EndlessText = 4,
    BadChecksum = 5,
    /// AA AA after a channel byte: a new frame begins.
    NewFrame = 6,
}

impl fmt::Display for Reason {
    ghost output = { λ r. Some (words_of r) };

    fn fmt<W: fmt::Write>(&self, f: &mut fmt::Formatter<W>) -> fmt::Result {
        f.write_str(match self {
            Reason::StrayMark => "a stray AA inside the frame",
            Reason::BadChannel => "no such channel",
            Reason::UnknownCode => "no such kind of frame",
            Reason::EndlessText => "a text without an end",
            Reason::BadChecksum => "the checksum is wrong",
            Reason::NewFrame => "a new frame began before this one ended",
        })
    }
}

/// A fault: where it was found, why, and how many raw bytes there were from the channel byte to the faulty one.
#[derive(Clone, Copy, PartialEq, Eq, Debug)]
pub struct Fault {
    pub layer: Layer,
    pub reason: Reason,
    pub count: u16,
}

impl Fault {
    // One line in each enum with numbers: `as` asks for the enum by name, and so would it in each impl of a trait.
    /// The number of its reason.
    pub fn number(self) -> u8
        ensures { result ≡ fault_number self.reason }
    {
        self.reason as u8
    }
}
