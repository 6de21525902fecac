// A row of a table of frames, and what is checked of it in either direction. (Here and in the other
// tables the runtime and the number of the row go along side by side: each assertion names both.)
use frame::form::Direction;
use frame::frames::{Parsed, read};
use frame::head::{Address, Head};
use reader::reader::Reader;
use reader::state::Heard;
use std::process::Abort;
use std::test::Fail;
use wire::writer::{WIRE, write};

/// What a buffer holds before a frame is written to it.
pub const BLANK: u8 = 0xee;

// No frame starts in these.
const JUNK: [u8; 3] = [0x00, 0xaa, 0x21];

/// A frame by its parts, and its wire form. The payload is without a count or a closing 00.
pub struct FrameCase<'s> {
    pub channel: u8,
    pub code: u8,
    pub reset: bool,
    pub toggle: bool,
    pub payload: &'s str,
    pub wire: &'s str,
}

impl FrameCase<'_> {
    fn head(&self) -> Result<Head, Fail> {
        Ok(Head {
            address: Address::of(self.channel).ok_or("no channel byte")?,
            reset: self.reset,
            toggle: self.toggle,
        })
    }
}

/// The frame is written as the row has it, and no byte beside it.
pub(crate) fn check_written<'a, F: Parsed<'a>>(
    rt: &impl Abort,
    row: usize,
    case: &FrameCase,
    payload: &'a [u8],
    wire: &[u8],
) -> Result<(), Fail> {
    let head = case.head()?;
    let frame = F::with(head.address, case.code, payload).ok_or("no such code")?;
    let mut buffer = [BLANK; WIRE];
    let len = write(head, frame, &mut buffer)?;
    assert_eq!(rt; len, wire.len(), "written, row {row}");
    assert!(rt; len <= buffer.len(), "written, row {row}");
    assert!(rt; &buffer[..len] == wire, "written, row {row}");
    assert!(rt;
        buffer[len..].iter().all(|b| *b == BLANK),
        "written, row {row}"
    );
    Ok(())
}

/// A fresh reader that has heard the frame after junk; it passes with its last byte and not before.
pub(crate) fn heard(
    rt: &impl Abort,
    row: usize,
    direction: Direction,
    wire: &[u8],
) -> Result<Reader, Fail> {
    let mut reader = Reader::new(direction);
    let (last, before) = wire.split_last().ok_or("no byte")?;
    for b in JUNK.iter().chain(before) {
        assert_eq!(rt; reader.hear(*b)?, Heard::More, "heard, row {row}");
    }
    assert_eq!(rt; reader.hear(*last)?, Heard::Frame, "heard, row {row}");
    Ok(reader)
}

/// A body reads as the row has it.
pub(crate) fn check_read<'a, F: Parsed<'a>>(
    rt: &impl Abort,
    row: usize,
    case: &FrameCase,
    payload: &[u8],
    body: &'a [u8],
) -> Result<(), Fail> {
    let (head, frame): (Head, F) = read(body).ok_or("no frame")?;
    assert_eq!(rt; head, case.head()?, "read, row {row}");
    assert_eq!(rt; frame.code(), case.code, "read, row {row}");
    assert_eq!(rt; frame.payload(), payload, "read, row {row}");
    Ok(())
}
