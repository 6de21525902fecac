// Whether a frame passed at an end's reader.
ghost use Rattle.std.specs.Prelude.{◌≡◌};
ghost use Rattle.show.specs.Passing.{has_passed};

use ends::refusal::Refusal;

/// Whether a frame passed with the byte that was heard. A frame that is refused has passed too, but
/// not one that the reader dropped; with a short wire buffer no byte is heard.
pub fn has_passed<T>(heard: &Result<Option<T>, Refusal>) -> bool
    ensures { result ≡ has_passed heard.now }
{
    match heard {
        Ok(rule) => rule.is_some(),
        Err(Refusal::Reader(_) | Refusal::ShortWire) => false,
        Err(_) => true,
    }
}
