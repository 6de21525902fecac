// A fresh reader says of each stream of the table what the table says, and nothing else.
use frame::form::Direction;
use reader::fault::Fault;
use reader::reader::Reader;
use reader::state::Heard;
use std::alloc::Global;
use std::process::Abort;
use std::test::Fail;
use table::StreamCase;

mod table;

// Adds what a byte brought to the events; its place is counted from 1. (A function, and no
// `Display`: what a byte brought is an answer, and beside it a body that the reader lends.)
fn tell(
    events: &mut String,
    place: usize,
    heard: Result<Heard, Fault>,
    body: Option<&[u8]>,
) -> Result<(), Fail> {
    if matches!(heard, Ok(Heard::More)) && body.is_none() {
        return Ok(());
    }
    if !events.is_empty() {
        write!(events, " ")?;
    }
    match (heard, body) {
        (Ok(Heard::Frame), Some(body)) => {
            let body = hex::encode_upper(*events.allocator(), body)?;
            write!(events, "{place}:{body}")?;
        }
        (Err(fault), None) => {
            let number = fault.number();
            let count = fault.count;
            write!(events, "{place}:{number}/{count}")?;
        }
        // A body without a frame, or a frame without a body.
        _ => write!(events, "{place}:?")?,
    }
    Ok(())
}

fn events_of(heap: Global, direction: Direction, stream: &[u8]) -> Result<String, Fail> {
    let mut reader = Reader::new(direction);
    let mut events = String::new(heap);
    for (i, b) in stream.iter().enumerate() {
        let heard = reader.hear(*b);
        tell(&mut events, i + 1, heard, reader.body())?;
    }
    Ok(events)
}

fn check_stream(rt: &impl Abort, heap: Global, row: usize, case: &StreamCase) -> Result<(), Fail> {
    let stream = hex::decode(heap, case.stream.as_bytes())?;
    let events = events_of(heap, case.direction, stream.as_slice())?;
    assert_eq!(rt; events.as_str(), case.events, "row {row}");
    Ok(())
}

#[test]
fn told(rt: HostRuntime) -> Result<(), Fail> {
    table::STREAMS
        .iter()
        .enumerate()
        .try_for_each(|(row, case)| check_stream(&rt, rt.alloc(), row, case))
}
