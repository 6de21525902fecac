// Each exchange of the tables is played by two ends whose stores are of both kinds.
use crate::both::{collect, count, submit};
use crate::calls::{Call, Row};
use crate::host_side::HostSide;
use crate::tables::{
    FAULTS, FRAMES_THAT_NO_HOST_SENDS, HELD_AGAIN, NO_PLACE, NO_REPEATS, NO_ROOM, OUT_OF_SEQUENCE,
    POLLED, REFUSED_BLOCKS, STATES, THE_LOWEST_CHANNEL_FIRST, WRONG_ANSWERS,
};
use crate::tnc_side::TncSide;
use shelf::Shelf;
use std::alloc::Global;
use std::process::Abort;
use std::test::Fail;
use store::Store;
use strip::Strip;
use wire::writer::WIRE;

/// What a wire buffer holds before a call.
const BLANK: u8 = 0xee;

/// How long the strips' areas are: room for three blocks.
const AREA: usize = 800;

/// Both ends, and how many bytes a wire buffer has.
#[derive(Drop)]
struct Link<O, I, U, V> {
    host: HostSide<O, I>,
    tnc: TncSide<U, V>,
    room: usize,
}

impl<O: Store + Drop, I: Store + Drop, U: Store + Drop, V: Store + Drop> Link<O, I, U, V> {
    // Makes a call and tells what it answers; how many bytes it wrote.
    fn call(&mut self, told: &mut String, wire: &mut [u8], call: &Call) -> Result<usize, Fail> {
        match call {
            Call::Open => self.host.open(told, wire),
            Call::Step => self.host.step(told, wire),
            Call::Timer => self.host.timer(told, wire),
            Call::HostHears(bytes) => self.host.hear(told, bytes),
            Call::HostSubmits(channel, block) => submit(told, &mut self.host, *channel, block),
            Call::HostCollects(channel) => collect(told, &mut self.host, *channel),
            Call::HostCounts(channel) => count(told, &self.host, *channel),
            Call::FillHost => Ok(fill(&mut self.host.inn)),
            Call::TncHears(bytes) => self.tnc.hear(told, wire, bytes),
            Call::TncSubmits(channel, block) => submit(told, &mut self.tnc, *channel, block),
            Call::TncCollects(channel) => collect(told, &mut self.tnc, *channel),
            Call::TncCounts(channel) => count(told, &self.tnc, *channel),
            Call::FillTnc => Ok(fill(&mut self.tnc.inn)),
            Call::Room(room) => {
                self.room = *room;
                Ok(0)
            }
        }
    }

    // The call of a row answers and writes what the row says, and no byte beside it.
    fn check(
        &mut self,
        rt: &impl Abort,
        heap: Global,
        place: usize,
        row: &Row,
    ) -> Result<(), Fail> {
        let Row(call, says) = row;
        let mut told = String::new(heap);
        let mut whole = [BLANK; WIRE];
        let wire = whole.get_mut(0..self.room).ok_or("no such room")?;
        let sent = self.call(&mut told, wire, call)?;
        let (written, rest) = whole.split_at_checked(sent).ok_or("no such length")?;
        if !written.is_empty() {
            let line = hex::encode_upper(heap, written)?;
            write!(told, ": {line}")?;
        }
        assert_eq!(rt; told.as_str(), *says, "row {place}");
        assert!(rt; rest.iter().all(|byte| *byte == BLANK), "row {place}");
        Ok(())
    }

    fn play(&mut self, rt: &impl Abort, heap: Global, rows: &[Row]) -> Result<(), Fail> {
        for (place, row) in rows.iter().enumerate() {
            self.check(rt, heap, place, row)?;
        }
        Ok(())
    }
}

// As many blocks as the store takes; no byte is sent.
fn fill<S: Store>(store: &mut S) -> usize {
    for _ in store.total()..store.limit() {
        let _ = store.put(9, &[9]);
    }
    0
}

// The exchange is the same whichever end has its outgoing blocks on a shelf.
fn check_exchange(rt: &impl Abort, heap: Global, repeats: u8, rows: &[Row]) -> Result<(), Fail> {
    let mut one = [0x55; AREA];
    let mut other = [0x55; AREA];
    let mut link = Link {
        host: HostSide::new(repeats, Shelf::new(), Strip::new(&mut one))?,
        tnc: TncSide::new(Strip::new(&mut other), Shelf::new()),
        room: WIRE,
    };
    link.play(rt, heap, rows)?;
    let mut one = [0x55; AREA];
    let mut other = [0x55; AREA];
    let mut link = Link {
        host: HostSide::new(repeats, Strip::new(&mut one), Shelf::new())?,
        tnc: TncSide::new(Shelf::new(), Strip::new(&mut other)),
        room: WIRE,
    };
    link.play(rt, heap, rows)
}

#[test]
fn no_repeats(rt: HostRuntime) -> Result<(), Fail> {
    check_exchange(&rt, rt.alloc(), 0, &NO_REPEATS)
}

#[test]
fn polled(rt: HostRuntime) -> Result<(), Fail> {
    check_exchange(&rt, rt.alloc(), 1, &POLLED)
}

#[test]
fn the_lowest_channel_first(rt: HostRuntime) -> Result<(), Fail> {
    check_exchange(&rt, rt.alloc(), 0, &THE_LOWEST_CHANNEL_FIRST)
}

#[test]
fn no_place(rt: HostRuntime) -> Result<(), Fail> {
    check_exchange(&rt, rt.alloc(), 0, &NO_PLACE)
}

#[test]
fn frames_that_no_host_sends(rt: HostRuntime) -> Result<(), Fail> {
    check_exchange(&rt, rt.alloc(), 0, &FRAMES_THAT_NO_HOST_SENDS)
}

#[test]
fn held_again(rt: HostRuntime) -> Result<(), Fail> {
    check_exchange(&rt, rt.alloc(), 1, &HELD_AGAIN)
}

#[test]
fn no_room(rt: HostRuntime) -> Result<(), Fail> {
    check_exchange(&rt, rt.alloc(), 1, &NO_ROOM)
}

#[test]
fn wrong_answers(rt: HostRuntime) -> Result<(), Fail> {
    check_exchange(&rt, rt.alloc(), 0, &WRONG_ANSWERS)
}

#[test]
fn out_of_sequence(rt: HostRuntime) -> Result<(), Fail> {
    check_exchange(&rt, rt.alloc(), 15, &OUT_OF_SEQUENCE)
}

#[test]
fn states(rt: HostRuntime) -> Result<(), Fail> {
    check_exchange(&rt, rt.alloc(), 0, &STATES)
}

#[test]
fn refused_blocks(rt: HostRuntime) -> Result<(), Fail> {
    check_exchange(&rt, rt.alloc(), 0, &REFUSED_BLOCKS)
}

#[test]
fn faults(rt: HostRuntime) -> Result<(), Fail> {
    check_exchange(&rt, rt.alloc(), 0, &FAULTS)
}
