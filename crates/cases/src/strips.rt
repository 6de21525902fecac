// Strips alone: which areas they take, their limits, and the bytes of the area, worked by hand from
// the layout of records.
use crate::stores::refused;
use std::alloc::Global;
use std::process::Abort;
use std::test::Fail;
use store::Store;
use strip::Strip;
use strip::refusal::check;

/// An area's length, and the limit of a strip in it; none where it is refused.
static AREAS: [(usize, Option<usize>); 8] = [
    (0, None),
    (257, None),
    (258, Some(1)),
    (515, Some(1)),
    (516, Some(2)),
    (65_535, Some(254)),
    (65_536, Some(254)),
    (65_537, None),
];

#[test]
fn areas(rt: HostRuntime) -> Result<(), Fail> {
    for (len, limit) in &AREAS {
        assert_eq!(rt; limit_in(&rt, rt.alloc(), *len)?, *limit);
    }
    Ok(())
}

// The limit of a strip in an area of that length; none where it is refused, and then by 17.
fn limit_in(rt: &impl Abort, heap: Global, len: usize) -> Result<Option<usize>, Fail> {
    let mut area = vec![in heap; 0u8; len]?;
    match check(area.as_slice()) {
        Ok(()) => Ok(Some(Strip::new(area.as_mut_slice()).limit())),
        Err(refusal) => {
            assert_eq!(rt; refusal.number(), 17);
            Ok(None)
        }
    }
}

// A record is channel, length less 1, bytes. A drop closes the gap, and the bytes past the new end
// stay.
#[test]
fn records(rt: HostRuntime) {
    let mut area = [0x55; 516];
    let mut strip = Strip::new(&mut area);
    assert_eq!(rt; refused(strip.put(63, &[1, 2, 3])), None);
    assert_eq!(rt; refused(strip.put(5, &[9])), None);
    assert_eq!(rt; refused(strip.put(5, &[8])), Some(12));
    assert_eq!(rt; refused(strip.drop_first(63)), None);
    assert!(rt; area[0..9] == [5, 0, 9, 2, 3, 5, 0, 9, 0x55]);
}
