// How a record is written into the area.
ghost use Rattle.std.specs.Prelude.{◌≡◌, ◌+◌, ◌-◌, ◌≤◌, ◌∷◌, ◌++◌, length, take, drop};
ghost use Rattle.frame.specs.Frame.{longest_block};
ghost use Rattle.strip.specs.Records.{record_size};

use crate::HEAD;

/// Writes a record at a place.
pub(crate) fn write(area: &mut [u8], at: usize, channel: u8, block: &[u8])
    requires some { 1 ≤ length block.now }
    requires short { length block.now ≤ longest_block }
    requires fits { at + record_size ≤ length area.old }
    ensures len { length area.new ≡ length area.old }
    ensures after { area.new ≡ take at area.old ++ (channel ∷ (length block.now - 1) ∷ block.now) ++ drop (at + 2 + length block.now) area.old }
{
    let n = block.len();
    area[at] = channel;
    area[at + 1] = (n - 1) as u8;
    area[at + HEAD..at + HEAD + n].copy_from_slice(block);
}
