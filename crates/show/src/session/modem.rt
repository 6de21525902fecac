// What the modem's calls answer.
use super::{CHANNEL, Session, Task};
use crate::passing::has_passed;
use crate::settled::Settled;
use crate::words::RuleWords;
use anyhow::Result;
use ends::refusal::Refusal;
use order::words::Kind;
use tnc::answer::{Heard, Rule};

impl Session<'_> {
    /// A text of the modem's program is in the store.
    pub(crate) fn modem_submitted(&mut self, name: u32) -> Result<()> {
        let cargo = self.offered;
        self.record.to_terminal.submit(cargo)?;
        println!(self.rt;
            "Modem, submit: {}, as ({CHANNEL}, {name}).",
            Kind::Byte.of(cargo.bytes(self.text).len())
        )?;
        Ok(())
    }

    /// A byte of the terminal was heard.
    pub(crate) fn modem_hears(
        &mut self,
        byte: u8,
        heard: &std::result::Result<Option<Heard>, Refusal>,
        wire: &[u8],
    ) -> Result<()> {
        if let Some(passed) = self.hear_byte(byte, has_passed(heard))? {
            self.record.to_modem.passed.push(passed)?;
        }
        match heard {
            Ok(None) => Ok(()),
            Ok(Some(heard)) => self.modem_meets(*heard, wire),
            Err(refusal) => self.tell_dropped("Modem", *refusal),
        }
    }

    // The rule that a frame of the terminal met. The answer goes on the line, and a block that came
    // is collected first.
    fn modem_meets(&mut self, heard: Heard, wire: &[u8]) -> Result<()> {
        let fate = self.to_terminal.fate().words();
        println!(self.rt; "Modem, hears: {}{fate}", RuleWords(heard))?;
        if let Some(went) = heard.went {
            self.record.to_terminal.settle(Settled::of(went));
        }
        let mut came = self
            .to_terminal
            .carry(self.rt.alloc(), wire.get(..heard.sent).unwrap_or(&[]))?;
        came.reverse();
        for passage in came {
            self.tasks.push(Task::TerminalHears(passage))?;
        }
        if heard.rule == Rule::BlockTaken {
            self.tasks.push(Task::ModemCollects)?;
        }
        Ok(())
    }

    /// The modem's program has a block.
    pub(crate) fn modem_collected(&mut self, len: usize, block: &[u8]) -> Result<()> {
        println!(self.rt;
            "Modem, collect: {} on channel {CHANNEL}.",
            Kind::Byte.of(len)
        )?;
        let block = Vec::from_slice(self.rt.alloc(), block.get(..len).unwrap_or(&[]))?;
        self.record.to_modem.collected.push(block)?;
        Ok(())
    }
}
