// Where the count of resets and spare stop.
use crate::host_side::HostSide;
use shelf::Shelf;
use std::alloc::Global;
use std::test::Fail;
use wire::writer::WIRE;

/// A setting; how often the link was opened and fell before it opened; spare then, and after two stale frames.
struct SpareCase {
    repeats: u8,
    falls: u32,
    spare: u16,
    then: u16,
}

static SPARES: [SpareCase; 5] = [
    SpareCase {
        repeats: 1,
        falls: 1,
        spare: 2,
        then: 0,
    },
    SpareCase {
        repeats: 0,
        falls: 65_534,
        spare: 65_534,
        then: 65_532,
    },
    SpareCase {
        repeats: 0,
        falls: 65_535,
        spare: 65_535,
        then: 65_535,
    },
    SpareCase {
        repeats: 0,
        falls: 65_536,
        spare: 65_535,
        then: 65_535,
    },
    SpareCase {
        repeats: 15,
        falls: 4_096,
        spare: 65_535,
        then: 65_535,
    },
];

/// The answer to a reset of toggle 0.
const ANSWER: &str = "AAAAFF4100815F";

type ShelfSide = HostSide<Shelf, Shelf>;

// Opens, and lets the timers take the link down.
fn fall(side: &mut ShelfSide, heap: Global, repeats: u8) -> Result<(), Fail> {
    let mut told = String::new(heap);
    let mut wire = [0; WIRE];
    side.open(&mut told, &mut wire)?;
    for _ in 0..repeats {
        side.timer(&mut told, &mut wire)?;
    }
    side.timer(&mut told, &mut wire)?;
    Ok(())
}

// Spare once the link is open, and after two stale frames.
fn spares(heap: Global, case: &SpareCase) -> Result<(u16, u16), Fail> {
    let mut side = HostSide::new(case.repeats, Shelf::new(), Shelf::new())?;
    for _ in 0..case.falls {
        fall(&mut side, heap, case.repeats)?;
    }
    side.open(&mut String::new(heap), &mut [0; WIRE])?;
    side.hear(&mut String::new(heap), ANSWER)?;
    let spare = side.host.spare();
    side.hear(&mut String::new(heap), ANSWER)?;
    side.hear(&mut String::new(heap), ANSWER)?;
    Ok((spare, side.host.spare()))
}

#[test]
fn spare_stops(rt: HostRuntime) -> Result<(), Fail> {
    for case in &SPARES {
        assert_eq!(rt; spares(rt.alloc(), case)?, (case.spare, case.then));
    }
    Ok(())
}
