// What the terminal's calls answer.
use super::{CHANNEL, Session, Task};
use crate::cargo::Cargo;
use crate::passing::has_passed;
use crate::settled::Settled;
use crate::words::{FallWords, HeardWords, RefusalWords, step_text};
use anyhow::{Result, bail};
use ends::refusal::Refusal;
use host::answer::{Fall, Heard, Stepped, Timed};
use order::words::Kind;
use store::refusal::Refusal as StoreRefusal;

impl Session<'_> {
    /// A frame was written: it goes on the line.
    pub(crate) fn terminal_sends(
        &mut self,
        call: &str,
        what: &str,
        sent: usize,
        wire: &[u8],
    ) -> Result<()> {
        let bytes = Kind::Byte.of(sent);
        let fate = self.to_modem.fate().words();
        println!(self.rt; "Terminal, {call}: {what}, {bytes}.{fate}")?;
        let mut came = self
            .to_modem
            .carry(self.rt.alloc(), wire.get(..sent).unwrap_or(&[]))?;
        came.reverse();
        for passage in came {
            self.tasks.push(Task::ModemHears(passage))?;
        }
        Ok(())
    }

    pub(crate) fn terminal_stepped(&mut self, stepped: Stepped, wire: &[u8]) -> Result<()> {
        self.terminal_sends("step", step_text(stepped.rule), stepped.sent, wire)
    }

    pub(crate) fn terminal_timed(&mut self, timed: &Timed, wire: &[u8]) -> Result<()> {
        match timed {
            Timed::Repeated(sent) => self.terminal_sends("timer", "repeated", *sent, wire),
            Timed::Down(fall) => {
                println!(self.rt; "Terminal, timer: {}", FallWords(fall))?;
                self.terminal_settles(Settled::by_fall(fall));
                self.terminal_falls(fall)
            }
        }
    }

    /// A byte of the modem was heard.
    pub(crate) fn terminal_hears(
        &mut self,
        byte: u8,
        heard: &std::result::Result<Option<Heard>, Refusal>,
    ) -> Result<()> {
        if let Some(passed) = self.hear_byte(byte, has_passed(heard))? {
            self.record.to_terminal.passed.push(passed)?;
        }
        match heard {
            Ok(None) => Ok(()),
            Ok(Some(heard)) => self.terminal_meets(heard),
            Err(refusal) => self.tell_dropped("Terminal", *refusal),
        }
    }

    // The rule that a frame of the modem met.
    fn terminal_meets(&mut self, heard: &Heard) -> Result<()> {
        println!(self.rt; "Terminal, hears: {}", HeardWords(heard))?;
        self.terminal_settles(Settled::by_rule(heard));
        match heard {
            Heard::Received => Ok(self.tasks.push(Task::TerminalCollects)?),
            Heard::Confirmed(_) => Ok(()),
            Heard::Down(fall) => self.terminal_falls(fall),
            Heard::Stale
            | Heard::Opened
            | Heard::BlockRefused
            | Heard::NothingThere
            | Heard::Listed => Ok(()),
        }
    }

    // A block that left the terminal's store is settled, and there is room again.
    fn terminal_settles(&mut self, settled: Option<Settled>) {
        if let Some(settled) = settled {
            self.room = true;
            self.record.to_modem.settle(settled);
        }
    }

    // The link went down. A doubtful block of the order is to be submitted again, and the note of
    // another is to be written off.
    fn terminal_falls(&mut self, fall: &Fall) -> Result<()> {
        let Some(note) = &fall.doubt else {
            return Ok(());
        };
        match self.record.to_modem.cargo(note.number()) {
            Some(cargo @ Cargo::Block(_)) => {
                self.tasks.push(Task::TerminalSubmitsAgain(cargo))?;
            }
            Some(Cargo::Farewell | Cargo::Greeting | Cargo::Reply) | None => self.gives_up = true,
        }
        Ok(())
    }

    /// What was offered is in the store.
    pub(crate) fn terminal_submitted(&mut self, call: &str, name: u32) -> Result<()> {
        let cargo = self.offered;
        self.record.to_modem.submit(cargo)?;
        if let Cargo::Block(number) = cargo {
            self.next = self.next.max(number.saturating_add(1));
        }
        println!(self.rt;
            "Terminal, {call}: {cargo}, {}, as ({CHANNEL}, {name}).",
            Kind::Byte.of(cargo.bytes(self.text).len())
        )?;
        Ok(())
    }

    /// What was offered is refused. Where the store is full it waits.
    pub(crate) fn terminal_waits(&mut self, refusal: Refusal) -> Result<()> {
        if refusal != Refusal::Store(StoreRefusal::Full) {
            bail!("a submit is refused: {}", RefusalWords(refusal));
        }
        self.room = false;
        if self.told != Some(self.next) {
            self.told = Some(self.next);
            println!(self.rt;
                "Terminal, submit: {} The block has to wait.",
                RefusalWords(refusal)
            )?;
        }
        Ok(())
    }

    /// What the terminal's program reads.
    pub(crate) fn terminal_collected(&mut self, len: usize, block: &[u8]) -> Result<()> {
        let text = block.get(..len).unwrap_or(&[]);
        println!(self.rt;
            "Terminal, collect: {} on channel {CHANNEL}: {}",
            Kind::Byte.of(len),
            str::from_utf8(text).unwrap_or("no text.")
        )?;
        let block = Vec::from_slice(self.rt.alloc(), text)?;
        self.record.to_terminal.collected.push(block)?;
        Ok(())
    }
}
