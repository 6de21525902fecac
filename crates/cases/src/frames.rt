// The frames of the tables are written and heard as they have them.
use case::{FrameCase, check_read, check_written, heard};
use frame::form::Direction;
use frame::frames::{HostFrame, TncFrame};
use std::alloc::Global;
use std::process::Abort;
use std::test::Fail;

pub mod case;
mod from_host;
mod from_tnc;

// A frame of either direction is written as its row has it, and heard and read so. (Which type of
// frames it is can't be a parameter here: that type has the lifetime of the payload, which is this
// function's own.)
fn check_frame(
    rt: &impl Abort,
    heap: Global,
    row: usize,
    direction: Direction,
    case: &FrameCase,
) -> Result<(), Fail> {
    let payload = hex::decode(heap, case.payload.as_bytes())?;
    let wire = hex::decode(heap, case.wire.as_bytes())?;
    let (payload, wire) = (payload.as_slice(), wire.as_slice());
    let reader = heard(rt, row, direction, wire)?;
    let body = reader.body().ok_or("no body")?;
    match direction {
        Direction::FromHost => {
            check_written::<HostFrame>(rt, row, case, payload, wire)?;
            check_read::<HostFrame>(rt, row, case, payload, body)
        }
        Direction::FromTnc => {
            check_written::<TncFrame>(rt, row, case, payload, wire)?;
            check_read::<TncFrame>(rt, row, case, payload, body)
        }
    }
}

#[test]
fn host_frames(rt: HostRuntime) -> Result<(), Fail> {
    from_host::FRAMES.iter().enumerate().try_for_each(|(row, case)| check_frame(
        &rt,
        rt.alloc(),
        row,
        Direction::FromHost,
        case,
    ))
}

#[test]
fn tnc_frames(rt: HostRuntime) -> Result<(), Fail> {
    from_tnc::FRAMES.iter().enumerate().try_for_each(|(row, case)| check_frame(
        &rt,
        rt.alloc(),
        row,
        Direction::FromTnc,
        case,
    ))
}
