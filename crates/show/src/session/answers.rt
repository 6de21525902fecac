// What becomes of each answer: it is told in words, and may ask for something to be done.
ghost use Rattle.std.specs.Prelude.{⊤};

use super::{CHANNEL, Session};
use crate::words::{DroppedWords, RefusalWords};
use anyhow::{Error, Result, bail};
use ends::refusal::Refusal;
use host::note::DoubtNote;
use link::event::Event;
use link::observer::Observer;
use order::line_rule::Passed;

impl Observer for Session<'_> {
    ghost gives = { λ _ _ _. ⊤ };

    ghost sees = { λ _ _ _ _ _. ⊤ };

    fn note(&mut self) -> Option<DoubtNote> {
        std::mem::replace(&mut self.held, None)
    }

    fn observe(&mut self, event: Event, wire: &[u8], block: &[u8]) {
        if self.failed.is_none() {
            self.failed = self.take(&event, wire, block).err();
        }
        if let Some(note) = event.note() {
            self.keep(note);
        }
    }
}

impl Session<'_> {
    fn take(&mut self, event: &Event, wire: &[u8], block: &[u8]) -> Result<()> {
        match event {
            Event::HostOpen(Ok(sent)) => self.terminal_sends("open", "reset", *sent, wire),
            Event::HostOpen(Err(refusal)) => no_way_on("open", *refusal),
            Event::HostStep(Ok(stepped)) => self.terminal_stepped(*stepped, wire),
            Event::HostStep(Err(refusal)) => no_way_on("step", *refusal),
            Event::HostTimer(Ok(timed)) => self.terminal_timed(timed, wire),
            Event::HostTimer(Err(refusal)) => no_way_on("timer", *refusal),
            Event::HostHear(byte, heard) => self.terminal_hears(*byte, heard),
            Event::HostSubmit(_, _, Ok(name)) => self.terminal_submitted("submit", *name),
            Event::HostSubmit(_, _, Err(refusal)) => self.terminal_waits(*refusal),
            Event::HostSubmitAgain(_, _, _, Ok(name)) => {
                self.terminal_submitted("submit again", *name)
            }
            Event::HostSubmitAgain(_, _, _, Err(returned)) => {
                self.gives_up = true;
                self.tell_refused("Terminal, submit again", returned.refusal)
            }
            Event::HostCollect(_, Ok(len)) => self.terminal_collected(*len, block),
            Event::HostCollect(_, Err(refusal)) => self.tell_refused("Terminal, collect", *refusal),
            Event::TncHear(byte, heard) => self.modem_hears(*byte, heard, wire),
            Event::TncSubmit(_, _, Ok(name)) => self.modem_submitted(*name),
            Event::TncSubmit(_, _, Err(refusal)) => no_way_on("submit", *refusal),
            Event::TncCollect(_, Ok(len)) => self.modem_collected(*len, block),
            Event::TncCollect(_, Err(refusal)) => self.tell_refused("Modem, collect", *refusal),
            Event::NoNote(_) => Ok(()),
        }
    }

    // A note is held until its block is submitted again. One whose block is given up is written
    // off, and so is one that is still held when the next comes.
    fn keep(&mut self, note: DoubtNote) {
        let old = if self.gives_up {
            self.gives_up = false;
            Some(note)
        } else {
            std::mem::replace(&mut self.held, Some(note))
        };
        if let Some(old) = old {
            self.write_off(old);
        }
    }

    fn write_off(&mut self, note: DoubtNote) {
        let number = note.number();
        note.write_off();
        let told = println!(self.rt; "Terminal, write off: its block ({CHANNEL}, {number}).");
        if self.failed.is_none() {
            self.failed = told.err().map(Error::from);
        }
    }

    // An end heard a byte of what the line brings. If a frame passed with it: which the line was
    // bringing, and whether it had just come whole.
    pub(crate) fn hear_byte(&mut self, byte: u8, has_passed: bool) -> Result<Option<Passed>> {
        let Some(passage) = &mut self.hearing else {
            bail!("a byte is heard that the line did not bring");
        };
        passage.hear(byte)?;
        Ok(has_passed.then(|| passage.passed()))
    }

    fn tell_refused(&self, call: &str, refusal: Refusal) -> Result<()> {
        println!(self.rt; "{call}: {}", RefusalWords(refusal))?;
        Ok(())
    }

    pub(crate) fn tell_dropped(&self, end: &str, refusal: Refusal) -> Result<()> {
        println!(self.rt; "{end}, hears: {}", DroppedWords(refusal))?;
        Ok(())
    }
}

// A call that the session makes only where it is granted.
fn no_way_on(call: &str, refusal: Refusal) -> Result<()> {
    bail!("{call} is refused: {}", RefusalWords(refusal))
}
