// What a doubt note names, that it comes back from a refused submission, and that it is spent by a granted one. The store has
// room for one block.
use crate::both::End;
use crate::host_side::HostSide;
use host::answer::{Fall, Returned, Timed};
use host::note::DoubtNote;
use shelf::Shelf;
use std::alloc::Global;
use std::process::Abort;
use std::test::Fail;
use store::Store;
use strip::{RECORD, Strip};
use wire::writer::WIRE;

impl<O: Store + Drop, I: Store + Drop> HostSide<O, I> {
    // The link is opened by that answer, a block is sent, and the first timer takes the link down: the note.
    fn lose(&mut self, heap: Global, answer: &str) -> Result<Option<DoubtNote>, Fail> {
        let mut wire = [0; WIRE];
        self.open(&mut String::new(heap), &mut wire)?;
        self.hear(&mut String::new(heap), answer)?;
        self.step(&mut String::new(heap), &mut wire)?;
        match self.host.timer(&mut self.out, &mut wire) {
            Ok(Timed::Down(fall)) => {
                let Fall { cause: _, doubt } = fall;
                Ok(doubt)
            }
            Ok(Timed::Repeated(_)) => Ok(None),
            Err(_) => Ok(None),
        }
    }

    fn submit_again(&mut self, note: DoubtNote, block: &[u8]) -> Result<u32, Returned> {
        self.host.submit_again(&mut self.out, note, block)
    }
}

// The note that comes back with a refusal of that number; none where the block was granted.
fn come_back(rt: &impl Abort, answer: Result<u32, Returned>, number: u8) -> Option<DoubtNote> {
    match answer {
        Ok(_) => None,
        Err(returned) => {
            let Returned { refusal, note } = returned;
            assert_eq!(rt; refusal.number(), number);
            Some(note)
        }
    }
}

#[test]
fn notes(rt: HostRuntime) -> Result<(), Fail> {
    let mut area = [0x55; RECORD];
    let mut side = HostSide::new(0, Strip::new(&mut area), Shelf::new())?;
    assert_eq!(rt; side.submit(33, &[1])?, 1);
    let Some(note) = side.lose(rt.alloc(), "AAAAFF4100815F")? else {
        return Err(Fail::new("no note"));
    };
    assert_eq!(rt; (note.channel(), note.number()), (33, 1));
    assert_eq!(rt; side.submit(33, &[2]).ok(), Some(2));
    let Some(note) = come_back(&rt, side.submit_again(note, &[]), 11) else {
        return Err(Fail::new("a block of no byte"));
    };
    let Some(note) = come_back(&rt, side.submit_again(note, &[1]), 12) else {
        return Err(Fail::new("a block above the limit"));
    };
    assert_eq!(rt; (note.channel(), note.number()), (33, 1));
    note.write_off();
    let Some(note) = side.lose(rt.alloc(), "AAAAFFC1004DD3")? else {
        return Err(Fail::new("no note"));
    };
    assert_eq!(rt; (note.channel(), note.number()), (33, 2));
    match side.submit_again(note, &[2]) {
        Ok(number) => assert_eq!(rt; number, 3),
        Err(returned) => {
            let Returned { refusal: _, note } = returned;
            note.write_off();
            return Err(Fail::new("no room"));
        }
    }
    let counted = side.counted(33);
    assert_eq!(rt; (counted.gone, counted.waiting), (2, 1));
    Ok(())
}
