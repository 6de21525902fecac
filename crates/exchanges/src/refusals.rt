// Refusals that no exchange reaches: of a block that is too long, of a full store, of a buffer that is too short, and of a setting.
use crate::both::End;
use crate::host_side::HostSide;
use crate::tnc_side::TncSide;
use ends::refusal::Refusal;
use frame::form::BLOCK;
use host::host::Host;
use shelf::Shelf;
use std::process::Abort;
use std::test::Fail;
use strip::{RECORD, Strip};

// The number of the refusal; none where the call is granted.
fn refused<T: Drop>(answer: Result<T, Refusal>) -> Option<u8> {
    answer.err().map(|refusal| refusal.number())
}

#[test]
fn settings(rt: HostRuntime) {
    assert_eq!(rt; refused(Host::new(15)), None);
    assert_eq!(rt; refused(Host::new(16)), Some(18));
    assert_eq!(rt; refused(Host::new(255)), Some(18));
}

// An end whose stores are empty, the outgoing one with room for one block.
fn check_blocks<E: End + Drop>(rt: &impl Abort, mut end: E) {
    let long = [7; BLOCK + 1];
    assert_eq!(rt; refused(end.submit(64, &long)), Some(10));
    assert_eq!(rt; refused(end.submit(63, &long)), Some(11));
    assert_eq!(rt; refused(end.submit(63, &[7; BLOCK])), None);
    assert_eq!(rt; refused(end.submit(5, &[7])), Some(12));
    assert_eq!(rt; refused(end.submit(5, &long)), Some(11));
    let mut short = [9; BLOCK - 1];
    assert_eq!(rt; refused(end.collect(64, &mut short)), Some(14));
    assert_eq!(rt; refused(end.collect(63, &mut short)), Some(14));
    assert!(rt; short == [9; BLOCK - 1]);
}

#[test]
fn blocks(rt: HostRuntime) -> Result<(), Fail> {
    let mut area = [0x55; RECORD];
    check_blocks(&rt, HostSide::new(0, Strip::new(&mut area), Shelf::new())?);
    let mut area = [0x55; RECORD];
    check_blocks(&rt, TncSide::new(Strip::new(&mut area), Shelf::new()));
    Ok(())
}
