// The records of a strip's area, one after another. How they are gone over stands in `walk`, whose clauses name these types.
ghost use Rattle.std.specs.Prelude.{◌≡◌, ◌+◌, ◌≤◌, true, length};
ghost use Rattle.strip.specs.Records.{longest_area, laid_over, parsed, all_storable};

mod walk;

/// A record: where it begins, its channel, and the length of its block.
#[derive(Clone, Copy)]
pub(crate) struct Record {
    pub(crate) at: usize,
    pub(crate) channel: u8,
    pub(crate) len: usize,
}

/// The records that are left, first to last: the bytes from the next one on, where that begins, and how many.
#[derive(Drop)]
pub(crate) struct Records<'a> {
    pub(crate) rest: &'a [u8],
    pub(crate) at: usize,
    pub(crate) left: usize,
    ghost storable: { all_storable (parsed left rest.now) ≡ true },
    ghost whole: { rest.now ≡ laid_over (parsed left rest.now) rest.now },
    ghost high: { at + length rest.now ≤ longest_area },
}
