// What is told: one line for each event.
ghost use Rattle.std.specs.Prelude.{◌≡◌, true, false, if◌then◌else◌, IfOk};
ghost use Rattle.std.specs.Process.{exit_status};

use replay::ending::End;
use replay::event::Told;
use script::unreadable::Unreadable;
use std::alloc::Global;
use std::fmt::Display;
use std::io;
use std::io::{BufWriter, Write};
use std::process::ExitCode;

/// Where it is told, and whether a line could not be read.
#[derive(Drop)]
pub struct Teller<W: Write + Drop> {
    out: BufWriter<W>,
    unreadable: bool,
}

impl<W: Write + Drop> Teller<W> {
    pub fn new(alloc: Global, out: W) -> io::Result<Teller<W>>
        ensures { IfOk result (λ t. t.unreadable ≡ false) }
    {
        Ok(Teller {
            out: BufWriter::new(alloc, out)?,
            unreadable: false,
        })
    }

    /// One line.
    pub fn tell(&mut self, event: impl Display + Drop) -> io::Result<()>
        ensures { self.new.unreadable ≡ self.old.unreadable }
    {
        writeln!(self.out, "{event}")
    }

    /// What a call of an end came to.
    pub fn called(&mut self, line: u64, end: End, verb: &str, event: Told) -> io::Result<()>
        ensures { self.new.unreadable ≡ self.old.unreadable }
    {
        writeln!(self.out, "{line} {end} {verb} {event}")
    }

    /// What a byte came to, by its place among the bytes of the line.
    pub fn heard(&mut self, line: u64, end: End, place: usize, event: Told) -> io::Result<()>
        ensures { self.new.unreadable ≡ self.old.unreadable }
    {
        writeln!(self.out, "{line} {end} hear byte {place} {event}")
    }

    /// Why a line can't be read.
    pub fn unreadable(&mut self, line: u64, why: Unreadable) -> io::Result<()>
        ensures { self.new.unreadable ≡ true }
    {
        self.unreadable = true;
        writeln!(self.out, "{line} unreadable: {why}")
    }

    /// The last line is told: the status of the program, 1 where a line could not be read.
    pub fn finish(mut self) -> io::Result<ExitCode>
        ensures { IfOk result (λ code. exit_status code ≡ (if self.unreadable then 1 else 0)) }
    {
        self.out.flush()?;
        if self.unreadable {
            Ok(ExitCode::FAILURE)
        } else {
            Ok(ExitCode::SUCCESS)
        }
    }
}
