// Which areas a strip can be made of.
ghost use Rattle.std.specs.Prelude.{◌≡◌, length};
ghost use Rattle.strip.specs.Refusal.{refusal_number, check_answer};

use crate::{LONGEST_AREA, RECORD};

/// Why no strip is made of an area. The case has its number.
#[derive(Clone, Copy, PartialEq, Eq, Debug)]
pub enum AreaRefusal {
    /// It has fewer than 258 or more than 65,536 bytes.
    BadSize = 17,
}

impl AreaRefusal {
    // One line in each enum with numbers: `as` asks for the enum by name, and so would it in each impl of a trait.
    /// The number of the refusal.
    pub fn number(self) -> u8
        ensures { result ≡ refusal_number self }
    {
        self as u8
    }
}

/// Whether a strip can be made of the area.
pub fn check(area: &[u8]) -> Result<(), AreaRefusal>
    ensures { result ≡ check_answer (length area.now) }
{
    let n = area.len();
    if n < RECORD || n > LONGEST_AREA {
        return Err(AreaRefusal::BadSize);
    }
    Ok(())
}
