// Why a line of a script can't be read.
ghost use Rattle.std.specs.Prelude.{Some};
ghost use Rattle.script.specs.Unreadable.{why};

use std::fmt;

/// Why a line can't be read: what is wrong with the first word, from the left, that is missing or that no line may have
/// there. Of a word of bytes the length is looked at before the digits.
#[derive(Clone, Copy, PartialEq, Eq, Debug)]
pub enum Unreadable {
    /// A word that no line has in this place.
    UnknownWord,
    /// The line ends too soon.
    MissingWord,
    /// More words than the line may have.
    SpareWord,
    /// Something else than digits where a number stands.
    NoNumber,
    /// A number above 18,446,744,073,709,551,615.
    LargeNumber,
    /// A byte with one digit.
    OddHex,
    /// Something else than hexadecimal digits where bytes stand.
    NoHex,
    /// A set-up after the first call. No line by itself is one: whoever makes the calls says so.
    LateSetup,
}

impl fmt::Display for Unreadable {
    ghost output = { λ u. Some (why u) };

    fn fmt<W: fmt::Write>(&self, f: &mut fmt::Formatter<W>) -> fmt::Result {
        f.write_str(match self {
            Unreadable::UnknownWord => "unknown word",
            Unreadable::MissingWord => "a word is missing",
            Unreadable::SpareWord => "a word too many",
            Unreadable::NoNumber => "not a number",
            Unreadable::LargeNumber => "the number is too large",
            Unreadable::OddHex => "an odd number of hexadecimal digits",
            Unreadable::NoHex => "not hexadecimal digits",
            Unreadable::LateSetup => "a set-up after the first call",
        })
    }
}
