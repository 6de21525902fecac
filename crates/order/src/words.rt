// Numbers with their words.
ghost use Rattle.std.specs.Prelude.{◌≡◌, Some};
ghost use Rattle.order.specs.Words.{counted, words_of};

use std::fmt;

/// What is counted.
#[derive(Clone, Copy, PartialEq, Eq, Debug)]
pub enum Kind {
    Byte,
    Block,
}

/// So many of a kind, written as the number and its word: `1 byte`, `2 bytes`.
#[derive(Clone, Copy, PartialEq, Eq, Debug)]
pub struct Counted {
    pub number: usize,
    pub kind: Kind,
}

impl Kind {
    /// So many of this kind.
    pub fn of(self, number: usize) -> Counted
        ensures { result ≡ counted number self }
    {
        Counted { number, kind: self }
    }
}

impl fmt::Display for Counted {
    ghost output = { λ c. Some (words_of c) };

    fn fmt<W: fmt::Write>(&self, f: &mut fmt::Formatter<W>) -> fmt::Result {
        let number = self.number;
        let word = match (self.kind, number) {
            (Kind::Byte, 1) => "byte",
            (Kind::Byte, _) => "bytes",
            (Kind::Block, 1) => "block",
            (Kind::Block, _) => "blocks",
        };
        write!(f, "{number} {word}")
    }
}

#[cfg(test)]
mod tests {
    use super::*;
    use std::test::Fail;

    #[test]
    fn words(rt: HostRuntime) -> Result<(), Fail> {
        let cases = [
            (Kind::Byte.of(0), "0 bytes"),
            (Kind::Byte.of(1), "1 byte"),
            (Kind::Byte.of(256), "256 bytes"),
            (Kind::Block.of(1), "1 block"),
            (Kind::Block.of(3), "3 blocks"),
        ];
        for (counted, text) in cases {
            assert_eq!(rt; counted.to_string(rt.alloc())?.as_str(), text);
        }
        Ok(())
    }
}
