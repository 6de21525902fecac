// Reading a line.
ghost use Rattle.std.specs.Prelude.{◌≡◌, Ok};
ghost use Rattle.std.specs.Result.{result_map_both};
ghost use Rattle.script.specs.Bytes.{bytes_of};
ghost use Rattle.script.specs.Line.{IsLine, AllFit, parts_of, plain_line};
ghost use Rattle.script.specs.Said.{Said, said_by, host_said, tnc_said};
ghost use Rattle.script.specs.Reading.{line_says, text_says, store_in, host_in, tnc_in, ended, last_number, last_bytes, numbered_bytes, numbered_of};

use crate::command::{Command, HostCall, Setup, TncCall};
use crate::digits::Hex;
use crate::name::{
    FIRSTS, First, HOST_VERBS, HostVerb, KINDS, Kind, PLACES, TNC_VERBS, TncVerb, one_named,
};
use crate::number::number;
use crate::unreadable::Unreadable;
use crate::words::{is_blank, split_word, uncommented};

/// A number and bytes.
#[derive(Clone, Copy)]
struct NumberedHex<'a> {
    number: u64,
    bytes: Hex<'a>,
}

/// What a line says, or the first thing in it that can't be read. Whatever line is written of a command is read as that (`law`):
/// with any blanks between its words, and before and after them, with zeros before a number, with digits of either case, with a
/// comment; and so is its plainest line (`plain`).
pub fn read(line: &[u8]) -> Result<Command<'_>, Unreadable>
    ensures says { result_map_both said_by (λ e. e) result ≡ line_says line.now }
    ensures law { (said : Said) → IsLine said line.now
        → result_map_both said_by (λ e. e) result ≡ Ok said }
    ensures plain { (said : Said) → AllFit (parts_of said) → line.now ≡ plain_line said
        → result_map_both said_by (λ e. e) result ≡ Ok said }
{
    command(uncommented(line))
}

// What a line says without its comment.
fn command(text: &[u8]) -> Result<Command<'_>, Unreadable>
    ensures { result_map_both said_by (λ e. e) result ≡ text_says text.now }
{
    if is_blank(text) {
        return Ok(Command::Nothing);
    }
    let (first, rest) = split_word(text);
    match one_named(&FIRSTS, first)? {
        First::Repeats => Ok(Command::Setup(Setup::Repeats(last_number(rest)?))),
        First::Store => Ok(Command::Setup(store(rest)?)),
        First::Wire => Ok(Command::Wire(last_number(rest)?)),
        First::Buffer => Ok(Command::Buffer(last_number(rest)?)),
        First::Host => Ok(Command::Host(host_call(rest)?)),
        First::Tnc => Ok(Command::Tnc(tnc_call(rest)?)),
    }
}

// What comes after `store`.
fn store(text: &[u8]) -> Result<Setup, Unreadable>
    ensures { result ≡ store_in text.now }
{
    let (place, rest) = split_word(text);
    let place = one_named(&PLACES, place)?;
    let (kind, rest) = split_word(rest);
    match one_named(&KINDS, kind)? {
        Kind::Shelf => {
            end(rest)?;
            Ok(Setup::Shelf(place))
        }
        Kind::Strip => Ok(Setup::Strip(place, last_number(rest)?)),
    }
}

// What comes after `host`.
fn host_call(text: &[u8]) -> Result<HostCall<'_>, Unreadable>
    ensures { result_map_both host_said (λ e. e) result ≡ host_in text.now }
{
    let (verb, rest) = split_word(text);
    match one_named(&HOST_VERBS, verb)? {
        HostVerb::Open => {
            end(rest)?;
            Ok(HostCall::Open)
        }
        HostVerb::Step => {
            end(rest)?;
            Ok(HostCall::Step)
        }
        HostVerb::Timer => {
            end(rest)?;
            Ok(HostCall::Timer)
        }
        HostVerb::Hear => Ok(HostCall::Hear(last_bytes(rest)?)),
        HostVerb::Submit => {
            let NumberedHex { number, bytes } = numbered_bytes(rest)?;
            Ok(HostCall::Submit {
                channel: number,
                block: bytes,
            })
        }
        HostVerb::Again => {
            let NumberedHex { number, bytes } = numbered_bytes(rest)?;
            Ok(HostCall::Again {
                note: number,
                block: bytes,
            })
        }
        HostVerb::WriteOff => Ok(HostCall::WriteOff {
            note: last_number(rest)?,
        }),
        HostVerb::Collect => Ok(HostCall::Collect {
            channel: last_number(rest)?,
        }),
    }
}

// What comes after `tnc`.
fn tnc_call(text: &[u8]) -> Result<TncCall<'_>, Unreadable>
    ensures { result_map_both tnc_said (λ e. e) result ≡ tnc_in text.now }
{
    let (verb, rest) = split_word(text);
    match one_named(&TNC_VERBS, verb)? {
        TncVerb::Hear => Ok(TncCall::Hear(last_bytes(rest)?)),
        TncVerb::Submit => {
            let NumberedHex { number, bytes } = numbered_bytes(rest)?;
            Ok(TncCall::Submit {
                channel: number,
                block: bytes,
            })
        }
        TncVerb::Collect => Ok(TncCall::Collect {
            channel: last_number(rest)?,
        }),
    }
}

// No word more.
fn end(text: &[u8]) -> Result<(), Unreadable>
    ensures { result ≡ ended text.now tt }
{
    if is_blank(text) {
        Ok(())
    } else {
        Err(Unreadable::SpareWord)
    }
}

// A number, and no word more.
fn last_number(text: &[u8]) -> Result<u64, Unreadable>
    ensures { result ≡ last_number text.now }
{
    let (word, rest) = split_word(text);
    let value = number(word)?;
    end(rest)?;
    Ok(value)
}

// Bytes, and no word more.
fn last_bytes(text: &[u8]) -> Result<Hex<'_>, Unreadable>
    ensures { result_map_both bytes_of (λ e. e) result ≡ last_bytes text.now }
{
    let (word, rest) = split_word(text);
    let bytes = Hex::of(word)?;
    end(rest)?;
    Ok(bytes)
}

// A number, then bytes, and no word more.
fn numbered_bytes(text: &[u8]) -> Result<NumberedHex<'_>, Unreadable>
    ensures { result_map_both numbered_of (λ e. e) result ≡ numbered_bytes text.now }
{
    let (word, rest) = split_word(text);
    let number = number(word)?;
    let bytes = last_bytes(rest)?;
    Ok(NumberedHex { number, bytes })
}
