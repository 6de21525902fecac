// An end's ear: a reader that has heard its line from the beginning, so that every body it shows is that of a frame.
// The methods stand in `hearing`, since their clauses name this type.
ghost use Rattle.reader.specs.Read.{meaning};
ghost use Rattle.ends.specs.Line.{FromStart};

use reader::reader::Reader;

pub mod hearing;

/// A reader from its first byte on.
#[derive(Drop)]
pub struct Ear {
    reader: Reader,
    ghost line: { ∥ FromStart (meaning reader) ∥₁ },
}
