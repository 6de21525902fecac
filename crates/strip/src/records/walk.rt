// How the records of an area are gone over.
ghost use Rattle.std.specs.Iterator.{YieldsFirst, at_most};
ghost use Rattle.strip.specs.Walk.{ahead};

use super::{Record, Records};
use crate::HEAD;

impl Iterator for Records<'_> {
    type Item = Record;

    ghost next_gives = { YieldsFirst ahead };

    ghost remaining = { λ r. at_most r.left };

    fn next(&mut self) -> Option<Record> {
        if self.left == 0 {
            return None;
        }
        let record = Record {
            at: self.at,
            channel: self.rest[0],
            len: self.rest[1] as usize + 1,
        };
        self.rest = &self.rest[record.len + HEAD..];
        self.at += record.len + HEAD;
        self.left -= 1;
        Some(record)
    }
}
