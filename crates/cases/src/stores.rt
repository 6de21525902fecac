// The same tests run on a store of each kind: refusals and their order, limits, contents, channels,
// and use many times over. The expected values are worked by hand from the rules. (The runtime and
// the store go through all of them side by side: each assertion names the runtime, and in a struct
// of both it would be one name more.)
use frame::form::BLOCK;
use shelf::Shelf;
use std::process::Abort;
use std::test::Fail;
use store::Store;
use store::refusal::Refusal;
use strip::Strip;

const LONG: usize = 257;

/// A call of a store and what it must answer: the refusal's number, or none; a block; a number of
/// blocks.
enum Try {
    Put(u8, &'static [u8], Option<u8>),
    Drop(u8, Option<u8>),
    First(u8, &'static [u8]),
    Count(u8, usize),
    Total(usize),
}

// On an empty store each call refuses what it must, the first reason first, and nothing comes to
// wait.
static REFUSED_IN_ORDER: [Try; 8] = [
    Try::Put(64, &[1], Some(10)),
    Try::Put(255, &[], Some(10)),
    Try::Put(64, &[7; LONG], Some(10)),
    Try::Put(63, &[], Some(11)),
    Try::Put(0, &[7; LONG], Some(11)),
    Try::Drop(64, Some(10)),
    Try::Drop(63, Some(13)),
    Try::Total(0),
];

// Blocks of every length at the limits, of AA and of 00, come out as they went in; the highest
// channel goes.
static BYTES: [Try; 9] = [
    Try::Put(63, &[0xaa; BLOCK], None),
    Try::Put(0, &[0], None),
    Try::First(63, &[0xaa; BLOCK]),
    Try::First(0, &[0]),
    Try::Drop(63, None),
    Try::Drop(63, Some(13)),
    Try::First(0, &[0]),
    Try::Drop(0, None),
    Try::Total(0),
];

// Two channels in turn: each gives its own blocks in order, and a drop on one leaves the other.
static CHANNELS_APART: [Try; 14] = [
    Try::Put(5, &[1, 2], None),
    Try::Put(6, &[3], None),
    Try::Put(5, &[4], None),
    Try::Count(5, 2),
    Try::Count(6, 1),
    Try::Count(7, 0),
    Try::Count(64, 0),
    Try::Drop(5, None),
    Try::First(5, &[4]),
    Try::First(6, &[3]),
    Try::Drop(6, None),
    Try::First(5, &[4]),
    Try::Drop(5, None),
    Try::Total(0),
];

// A full store still refuses 10 and 11 first, and a drop makes room for one.
static FULL: [Try; 8] = [
    Try::Put(33, &[1], Some(12)),
    Try::Put(64, &[1], Some(10)),
    Try::Put(33, &[], Some(11)),
    Try::First(33, &[0]),
    Try::Drop(33, None),
    Try::Put(1, &[1], None),
    Try::Put(1, &[1], Some(12)),
    Try::Count(1, 1),
];

/// The number of the refusal; none where the call is granted.
pub(crate) fn refused<T: Drop>(answer: Result<T, Refusal>) -> Option<u8> {
    answer.err().map(|refusal| refusal.number())
}

fn goes<S: Store>(rt: &impl Abort, store: &mut S, one: &Try) -> Result<(), Fail> {
    match one {
        Try::Put(channel, block, refusal) => {
            assert_eq!(rt; refused(store.put(*channel, *block)), *refusal);
        }
        Try::Drop(channel, refusal) => {
            assert_eq!(rt; refused(store.drop_first(*channel)), *refusal);
        }
        Try::First(channel, block) => first_is(rt, store, *channel, *block)?,
        Try::Count(channel, count) => assert_eq!(rt; store.count(*channel), *count),
        Try::Total(total) => assert_eq!(rt; store.total(), *total),
    }
    Ok(())
}

fn all_go<S: Store>(rt: &impl Abort, store: &mut S, tries: &[Try]) -> Result<(), Fail> {
    for one in tries {
        goes(rt, store, one)?;
    }
    Ok(())
}

fn copies_refused<S: Store>(rt: &impl Abort, store: &S) {
    let mut short = [9; 255];
    let mut buffer = [9; BLOCK];
    assert_eq!(rt; refused(store.copy_first(64, &mut short)), Some(14));
    assert_eq!(rt; refused(store.copy_first(63, &mut short)), Some(14));
    assert_eq!(rt; refused(store.copy_first(64, &mut buffer)), Some(10));
    assert_eq!(rt; refused(store.copy_first(63, &mut buffer)), Some(13));
    assert!(rt; short == [9; 255]);
    assert!(rt; buffer == [9; BLOCK]);
}

// The first block of a channel is these bytes, and the rest of the buffer stays.
fn first_is<S: Store>(rt: &impl Abort, store: &S, channel: u8, bytes: &[u8]) -> Result<(), Fail> {
    let mut buffer = [9; 300];
    let len = store.copy_first(channel, &mut buffer)?;
    assert_eq!(rt; len, bytes.len());
    assert!(rt; &buffer[..len] == bytes);
    assert!(rt; buffer[len..].iter().all(|byte| *byte == 9));
    Ok(())
}

// Full at the limit and not before.
fn fills<S: Store>(rt: &impl Abort, store: &mut S, limit: usize) -> Result<(), Fail> {
    assert_eq!(rt; store.limit(), limit);
    for i in 0..limit {
        assert_eq!(rt; store.total(), i);
        assert_eq!(rt; refused(store.put(33, &[(i % 256) as u8])), None);
    }
    assert_eq!(rt; store.total(), limit);
    all_go(rt, store, &FULL)?;
    empties(rt, store, limit)
}

// Drops what is left, the last on channel 1.
fn empties<S: Store>(rt: &impl Abort, store: &mut S, limit: usize) -> Result<(), Fail> {
    for i in 1..limit {
        first_is(rt, store, 33, &[(i % 256) as u8])?;
        assert_eq!(rt; refused(store.drop_first(33)), None);
    }
    assert_eq!(rt; refused(store.drop_first(1)), None);
    assert_eq!(rt; store.total(), 0);
    Ok(())
}

// Two go in and two go out, so often that every place is used many times over.
fn wears<S: Store>(rt: &impl Abort, store: &mut S) -> Result<(), Fail> {
    for i in 0..300usize {
        let byte = (i % 256) as u8;
        let block = [byte; 200];
        assert_eq!(rt; refused(store.put(2, &block)), None);
        assert_eq!(rt; refused(store.put(3, &[byte, byte])), None);
        first_is(rt, store, 2, &block)?;
        assert_eq!(rt; refused(store.drop_first(2)), None);
        first_is(rt, store, 3, &[byte, byte])?;
        assert_eq!(rt; refused(store.drop_first(3)), None);
    }
    assert_eq!(rt; store.total(), 0);
    Ok(())
}

fn exercise<S: Store>(rt: &impl Abort, store: &mut S, limit: usize) -> Result<(), Fail> {
    all_go(rt, store, &REFUSED_IN_ORDER)?;
    copies_refused(rt, store);
    all_go(rt, store, &BYTES)?;
    all_go(rt, store, &CHANNELS_APART)?;
    wears(rt, store)?;
    fills(rt, store, limit)
}

#[test]
fn a_shelf(rt: HostRuntime) -> Result<(), Fail> {
    exercise(&rt, &mut Shelf::new(), 16)
}

#[test]
fn a_strip_of_three(rt: HostRuntime) -> Result<(), Fail> {
    let mut area = [0x55; 800];
    exercise(&rt, &mut Strip::new(&mut area), 3)
}

#[test]
fn the_longest_strip(rt: HostRuntime) -> Result<(), Fail> {
    let mut area = [0; 65_536];
    exercise(&rt, &mut Strip::new(&mut area), 254)
}
