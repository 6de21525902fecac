// Makes the calls of a script on the real ends, and tells the rule that is met at each call and byte.
#![tactic(auto)]

mod calls;
mod script_lines;
mod telling;

use crate::calls::Caller;
use crate::script_lines::ScriptLines;
use crate::telling::Teller;
use replay::buffers::Buffers;
use replay::notes::Notes;
use replay::session::Session;
use replay::settings::{Settings, SetupError};
use script::command::{Command, Setup};
use script::reading::read;
use std::alloc::Global;
use std::io;
use std::io::{Read, Write};
use std::process::ExitCode;

fn main(rt: HostRuntime) -> io::Result<ExitCode> {
    let mut notes = Notes::new(rt.alloc());
    let outcome = run(rt.alloc(), rt.reader(), io::writer(&rt), &mut notes);
    notes.write_off();
    outcome
}

// Reads the script to its end. The status is 1 where a line can't be read.
fn run<R: Read + Drop, W: Write + Drop>(
    alloc: Global,
    reader: R,
    writer: W,
    notes: &mut Notes,
) -> io::Result<ExitCode> {
    let mut lines = ScriptLines::new(alloc, reader)?;
    let mut teller = Teller::new(alloc, writer)?;
    let mut buffers = Buffers::new(alloc)?;
    let mut settings = Settings::new();
    set_up(alloc, &mut lines, &mut teller, &mut buffers, &mut settings)?;
    let Settings { host, mut choices } = settings;
    let mut caller = Caller {
        alloc,
        session: Session::new(host, &mut choices),
        notes,
        teller,
    };
    caller.call_all(&mut lines, &mut buffers)?;
    caller.close()
}

// Reads up to the first call. Its line is then the current one; if there is none, the script is at its end.
fn set_up<R: Read + Drop, W: Write + Drop>(
    alloc: Global,
    lines: &mut ScriptLines<R>,
    teller: &mut Teller<W>,
    buffers: &mut Buffers,
    settings: &mut Settings,
) -> io::Result<()> {
    for _ in 0..u64::MAX {
        if !lines.advance()? {
            break;
        }
        match read(lines.current()) {
            Ok(Command::Nothing) => {}
            Ok(Command::Setup(setup)) => set(alloc, teller, settings, setup)?,
            Ok(Command::Wire(length)) => buffers.set_wire(length)?,
            Ok(Command::Buffer(length)) => buffers.set_block(length)?,
            Ok(Command::Host(_) | Command::Tnc(_)) => break,
            Err(why) => teller.unreadable(lines.number(), why)?,
        }
    }
    Ok(())
}

// One line of set-up. A refused one is told, and leaves what was set.
fn set<W: Write + Drop>(
    alloc: Global,
    teller: &mut Teller<W>,
    settings: &mut Settings,
    setup: Setup,
) -> io::Result<()> {
    match settings.set(alloc, setup) {
        Ok(()) => Ok(()),
        Err(SetupError::NoMemory) => Err(io::ErrorKind::OutOfMemory.into()),
        Err(error) => teller.tell(error),
    }
}
