// Whether the blocks of an order, or the modem's texts, came, as it is told at the end.
ghost use Rattle.std.specs.Prelude.{Some};
ghost use Rattle.order.specs.Summary.{order_words, texts_words};

use crate::comparison::Comparison;
use crate::words::Kind;
use std::fmt;

/// What came of an order, and its length in bytes.
#[derive(Clone, Copy, PartialEq, Eq, Debug)]
pub struct OrderCame {
    pub came: Comparison,
    pub len: usize,
}

/// What came of the modem's texts, and how many bytes came.
#[derive(Clone, Copy, PartialEq, Eq, Debug)]
pub struct TextsCame {
    pub came: Comparison,
    pub len: usize,
}

impl fmt::Display for OrderCame {
    ghost output = { λ o. Some (order_words o) };

    fn fmt<W: fmt::Write>(&self, f: &mut fmt::Formatter<W>) -> fmt::Result {
        let len = Kind::Byte.of(self.len);
        if self.came.is_whole() {
            write!(
                f,
                "Each block of the order came once, the same byte for byte: {len}."
            )
        } else {
            write!(f, "The order of {len} did not come as it was sent.")
        }
    }
}

impl fmt::Display for TextsCame {
    ghost output = { λ t. Some (texts_words t) };

    fn fmt<W: fmt::Write>(&self, f: &mut fmt::Formatter<W>) -> fmt::Result {
        let len = Kind::Byte.of(self.len);
        if self.came.is_whole() {
            write!(
                f,
                "The modem's texts came once, the same byte for byte: {len}."
            )
        } else {
            write!(
                f,
                "The modem's texts did not come as they were sent: {len} came."
            )
        }
    }
}
