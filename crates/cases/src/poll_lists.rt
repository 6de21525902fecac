// Poll lists, read and written, worked by hand. Lists and sets of channels are texts of hex digits.
use poll::list::{ListText, PollList};
use std::alloc::Global;
use std::process::Abort;
use std::test::Fail;

/// The values of a list, and whether it is good: each 1 to 64, and once.
struct ListCase {
    values: &'static str,
    good: bool,
}

/// Waiting channels, and the list of them.
struct TextCase {
    waiting: &'static str,
    values: &'static str,
}

const ALL_CHANNELS: &str =
    "000102030405060708090A0B0C0D0E0F101112131415161718191A1B1C1D1E1F202122232425262728292A2B2C2D2E2F\
    303132333435363738393A3B3C3D3E3F";

const ALL: &str =
    "0102030405060708090A0B0C0D0E0F101112131415161718191A1B1C1D1E1F202122232425262728292A2B2C2D2E2F30\
    3132333435363738393A3B3C3D3E3F40";

const ALL_AND_ONE: &str =
    "0102030405060708090A0B0C0D0E0F101112131415161718191A1B1C1D1E1F202122232425262728292A2B2C2D2E2F30\
    3132333435363738393A3B3C3D3E3F4001";

static LISTS: [ListCase; 13] = [
    ListCase {
        values: "",
        good: true,
    },
    ListCase {
        values: "01",
        good: true,
    },
    ListCase {
        values: "40",
        good: true,
    },
    ListCase {
        values: "22",
        good: true,
    },
    ListCase {
        values: "400222",
        good: true,
    },
    ListCase {
        values: ALL,
        good: true,
    },
    ListCase {
        values: "00",
        good: false,
    },
    ListCase {
        values: "41",
        good: false,
    },
    ListCase {
        values: "FF",
        good: false,
    },
    ListCase {
        values: "2222",
        good: false,
    },
    ListCase {
        values: "010200",
        good: false,
    },
    ListCase {
        values: "014001",
        good: false,
    },
    ListCase {
        values: ALL_AND_ONE,
        good: false,
    },
];

static TEXTS: [TextCase; 6] = [
    TextCase {
        waiting: "",
        values: "",
    },
    TextCase {
        waiting: "00",
        values: "01",
    },
    TextCase {
        waiting: "21",
        values: "22",
    },
    TextCase {
        waiting: "3F",
        values: "40",
    },
    TextCase {
        waiting: "3F0021",
        values: "012240",
    },
    TextCase {
        waiting: ALL_CHANNELS,
        values: ALL,
    },
];

// A list names the channels of its values, first to last, and no more: each value less 1.
fn check_left(rt: &impl Abort, row: usize, mut list: PollList, values: &[u8]) -> Result<(), Fail> {
    for value in values {
        let channel = list.first().ok_or("too short")?;
        assert_eq!(rt; channel.number() + 1, *value, "row {row}");
        list.drop_first();
    }
    assert_eq!(rt; list.first(), None, "row {row}");
    Ok(())
}

fn check_read(rt: &impl Abort, heap: Global, row: usize, case: &ListCase) -> Result<(), Fail> {
    let values = hex::decode(heap, case.values.as_bytes())?;
    match PollList::read(values.as_slice()) {
        Some(list) if case.good => check_left(rt, row, list, values.as_slice()),
        Some(_) => Err(Fail::new("a bad list is read")),
        None => {
            assert!(rt; !case.good, "row {row}");
            Ok(())
        }
    }
}

fn check_listed(rt: &impl Abort, heap: Global, row: usize, case: &TextCase) -> Result<(), Fail> {
    let channels = hex::decode(heap, case.waiting.as_bytes())?;
    let values = hex::decode(heap, case.values.as_bytes())?;
    let text = ListText::of(&waiting(channels.as_slice()));
    assert_eq!(rt; text.bytes(), values.as_slice(), "row {row}");
    Ok(())
}

fn waiting(channels: &[u8]) -> [bool; 64] {
    let mut waiting = [false; 64];
    for channel in channels {
        if let Some(waits) = waiting.get_mut(usize::from(*channel)) {
            *waits = true;
        }
    }
    waiting
}

#[test]
fn read(rt: HostRuntime) -> Result<(), Fail> {
    LISTS
        .iter()
        .enumerate()
        .try_for_each(|(row, case)| check_read(&rt, rt.alloc(), row, case))
}

#[test]
fn listed(rt: HostRuntime) -> Result<(), Fail> {
    TEXTS
        .iter()
        .enumerate()
        .try_for_each(|(row, case)| check_listed(&rt, rt.alloc(), row, case))
}
