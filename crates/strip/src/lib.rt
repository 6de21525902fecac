// The strip: a store in a given area, its records back to back in order of arrival. The types stand here, since
// the definitions in specs/ name them; what the strip does at each call stands in `calls`, how a record is written in
// `bytes`, and how records are gone over in `records`.
#![tactic(auto)]

ghost use Rattle.std.specs.Prelude.{◌≡◌, ◌≤◌, true, ◌++◌, length, drop};
ghost use Rattle.strip.specs.Records.{record_size, longest_area, limit_of, laid, parsed, all_storable};

use frame::form::BLOCK;

mod bytes;
pub mod calls;
mod records;
pub mod refusal;

// What stands before a record's block: its channel, and its length less 1.
const HEAD: usize = 2;

/// The length of the longest record, and so of the shortest area.
pub const RECORD: usize = HEAD + BLOCK;

/// The length of the longest area.
pub const LONGEST_AREA: usize = 65_536;

/// The strip: a store in a lent area. Its first `used` bytes are `held` whole records. (Both numbers stand beside the area:
/// it is the lender's, in fixed memory, and what it held before the first put is no record.)
#[derive(Drop)]
pub struct Strip<'a> {
    area: &'a mut [u8],
    used: usize,
    held: usize,
    ghost low: { record_size ≤ length area.now },
    ghost high: { length area.now ≤ longest_area },
    ghost room: { held ≤ limit_of (length area.now) },
    ghost storable: { all_storable (parsed held area.now) ≡ true },
    ghost long: { length (laid (parsed held area.now)) ≡ used },
    ghost whole: { area.now ≡ laid (parsed held area.now) ++ drop used area.now },
}
