// Where the writers refuse a frame: they say why, and leave the buffer as it was. The limits are
// worked by hand from the rules: a buffer of 521 bytes, a block of 1 to 256, a text of at most 255
// and no 00.
use crate::frames::case::BLANK;
use frame::form::Direction;
use frame::frames::{HostFrame, Parsed, TncFrame};
use frame::head::{Address, Head};
use std::process::Abort;
use std::test::Fail;
use wire::writer::{WIRE, write};

/// Frames that differ in their code alone, the size of the buffer, and the number of the refusal,
/// if they are refused.
struct WriteCase {
    direction: Direction,
    codes: &'static [u8],
    payload: &'static [u8],
    room: usize,
    refusal: Option<u8>,
}

const SHORT_WIRE: Option<u8> = Some(14);

const BAD_PAYLOAD: Option<u8> = Some(11);

static WRITES: [WriteCase; 16] = [
    WriteCase {
        direction: Direction::FromHost,
        codes: &[0, 1],
        payload: &[0x78],
        room: 520,
        refusal: SHORT_WIRE,
    },
    WriteCase {
        direction: Direction::FromHost,
        codes: &[0, 1],
        payload: &[0x78],
        room: 521,
        refusal: None,
    },
    WriteCase {
        direction: Direction::FromTnc,
        codes: &[0],
        payload: &[],
        room: 520,
        refusal: SHORT_WIRE,
    },
    WriteCase {
        direction: Direction::FromTnc,
        codes: &[0],
        payload: &[],
        room: 521,
        refusal: None,
    },
    WriteCase {
        direction: Direction::FromTnc,
        codes: &[1, 2, 3, 4, 5, 6, 7],
        payload: &[0x78],
        room: 520,
        refusal: SHORT_WIRE,
    },
    WriteCase {
        direction: Direction::FromTnc,
        codes: &[1, 2, 3, 4, 5, 6, 7],
        payload: &[0x78],
        room: 521,
        refusal: None,
    },
    WriteCase {
        direction: Direction::FromHost,
        codes: &[0, 1],
        payload: &[],
        room: 521,
        refusal: BAD_PAYLOAD,
    },
    WriteCase {
        direction: Direction::FromHost,
        codes: &[0, 1],
        payload: &[0x78; 256],
        room: 521,
        refusal: None,
    },
    WriteCase {
        direction: Direction::FromHost,
        codes: &[0, 1],
        payload: &[0x78; 257],
        room: 521,
        refusal: BAD_PAYLOAD,
    },
    WriteCase {
        direction: Direction::FromTnc,
        codes: &[6, 7],
        payload: &[],
        room: 521,
        refusal: BAD_PAYLOAD,
    },
    WriteCase {
        direction: Direction::FromTnc,
        codes: &[6, 7],
        payload: &[0x78; 256],
        room: 521,
        refusal: None,
    },
    WriteCase {
        direction: Direction::FromTnc,
        codes: &[6, 7],
        payload: &[0x78; 257],
        room: 521,
        refusal: BAD_PAYLOAD,
    },
    WriteCase {
        direction: Direction::FromTnc,
        codes: &[1, 2, 3, 4, 5],
        payload: &[],
        room: 521,
        refusal: None,
    },
    WriteCase {
        direction: Direction::FromTnc,
        codes: &[1, 2, 3, 4, 5],
        payload: &[0x78; 255],
        room: 521,
        refusal: None,
    },
    WriteCase {
        direction: Direction::FromTnc,
        codes: &[1, 2, 3, 4, 5],
        payload: &[0x78; 256],
        room: 521,
        refusal: BAD_PAYLOAD,
    },
    WriteCase {
        direction: Direction::FromTnc,
        codes: &[1, 2, 3, 4, 5],
        payload: &[0x78, 0x00, 0x78],
        room: 521,
        refusal: BAD_PAYLOAD,
    },
];

// The number of the refusal, if the frame of this code and payload is refused.
fn refusal_of<'a, F: Parsed<'a>>(
    code: u8,
    payload: &'a [u8],
    buffer: &mut [u8],
) -> Result<Option<u8>, Fail> {
    let head = Head {
        address: Address::General,
        reset: false,
        toggle: true,
    };
    let frame = F::with(head.address, code, payload).ok_or("no such code")?;
    Ok(
        write(head, frame, buffer)
            .err()
            .map(|refusal| refusal.number()),
    )
}

fn check_write(rt: &impl Abort, row: usize, case: &WriteCase, code: u8) -> Result<(), Fail> {
    let mut whole = [BLANK; WIRE];
    let buffer = whole.get_mut(0..case.room).ok_or("no such room")?;
    let refusal = match case.direction {
        Direction::FromHost => refusal_of::<HostFrame>(code, case.payload, buffer)?,
        Direction::FromTnc => refusal_of::<TncFrame>(code, case.payload, buffer)?,
    };
    assert_eq!(rt; refusal, case.refusal, "row {row}, code {code}");
    if refusal.is_some() {
        assert!(rt; whole == [BLANK; WIRE], "row {row}, code {code}");
    }
    Ok(())
}

fn check_writes(rt: &impl Abort, row: usize, case: &WriteCase) -> Result<(), Fail> {
    for code in case.codes {
        check_write(rt, row, case, *code)?;
    }
    Ok(())
}

#[test]
fn refused_and_left(rt: HostRuntime) -> Result<(), Fail> {
    WRITES
        .iter()
        .enumerate()
        .try_for_each(|(row, case)| check_writes(&rt, row, case))
}
