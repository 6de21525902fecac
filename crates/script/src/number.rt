// Decimal numbers.
ghost use Rattle.std.specs.Prelude.{◌≡◌, ◌<◌, length, true};
ghost use Rattle.std.specs.List.{list_all};
ghost use Rattle.std.specs.Char.{is_ascii_digit};
ghost use Rattle.script.specs.Numbers.{number_in, value_of};

use crate::unreadable::Unreadable;
use std::str;

/// The number that a word is: digits alone, and no more than 64 bits hold.
pub fn number(word: &[u8]) -> Result<u64, Unreadable>
    ensures { result ≡ number_in word.now }
{
    if word.is_empty() {
        return Err(Unreadable::MissingWord);
    }
    if !is_decimal(word) {
        return Err(Unreadable::NoNumber);
    }
    value(word).ok_or(Unreadable::LargeNumber)
}

// Whether all bytes are digits.
fn is_decimal(word: &[u8]) -> bool
    ensures { result ≡ list_all is_ascii_digit word.now }
{
    word.iter().all(|b| b.is_ascii_digit())
}

// What digits are worth, if 64 bits hold it.
fn value(word: &[u8]) -> Option<u64>
    requires some { 0 < length word.now }
    requires decimal { list_all is_ascii_digit word.now ≡ true }
    ensures { result ≡ value_of word.now }
{
    str::from_utf8(word).unwrap().parse().ok()
}
