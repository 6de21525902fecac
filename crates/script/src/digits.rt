// Bytes in hexadecimal digits.
ghost use Rattle.std.specs.Prelude.{◌≡◌, IfOk};
ghost use Rattle.std.specs.Result.{result_map_both};
ghost use Rattle.std.specs.List.{list_all};
ghost use Rattle.std.specs.Char.{is_ascii_hexdigit};
ghost use Rattle.script.specs.Bytes.{bytes_in, bytes_of};

use crate::unreadable::Unreadable;
use std::alloc::{AllocError, Global};

/// Bytes as a script writes them: two digits each, none for no bytes.
#[derive(Clone, Copy)]
pub struct Hex<'a> {
    digits: &'a [u8],
}

impl<'a> Hex<'a> {
    /// The bytes that a word is; `-` is no bytes.
    pub fn of(word: &'a [u8]) -> Result<Hex<'a>, Unreadable>
        ensures { result_map_both bytes_of (λ e. e) result ≡ bytes_in word.now }
    {
        if word.is_empty() {
            return Err(Unreadable::MissingWord);
        }
        if word == b"-".as_slice() {
            return Ok(Hex { digits: &word[..0] });
        }
        if word.len() % 2 == 1 {
            return Err(Unreadable::OddHex);
        }
        if !is_hexadecimal(word) {
            return Err(Unreadable::NoHex);
        }
        Ok(Hex { digits: word })
    }

    /// The bytes themselves.
    pub fn bytes(&self, alloc: Global) -> Result<Vec<u8>, AllocError>
        ensures { IfOk result (λ v. v.items ≡ bytes_of self.now) }
    {
        hex::decode(alloc, self.digits).map_err(|_| AllocError)
    }
}

// Whether all bytes are hexadecimal digits, of either case.
fn is_hexadecimal(word: &[u8]) -> bool
    ensures { result ≡ list_all is_ascii_hexdigit word.now }
{
    word.iter().all(|b| b.is_ascii_hexdigit())
}
