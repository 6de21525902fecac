// The calls of a script, made one after the other.
use crate::script_lines::ScriptLines;
use crate::telling::Teller;
use replay::buffers::Buffers;
use replay::ending::End;
use replay::event::Told;
use replay::notes::Notes;
use replay::session::{Session, host_write_off};
use script::command::{Command, HostCall, TncCall};
use script::digits::Hex;
use script::name::Named;
use script::reading::read;
use script::unreadable::Unreadable;
use std::alloc::Global;
use std::io;
use std::io::{Read, Write};
use std::process::ExitCode;

/// Makes the calls of lines on a session, and tells what comes of them.
#[derive(Drop)]
pub struct Caller<'a, 'b, W: Write + Drop> {
    pub alloc: Global,
    pub session: Session<'a>,
    pub notes: &'b mut Notes,
    pub teller: Teller<W>,
}

impl<W: Write + Drop> Caller<'_, '_, W> {
    /// The current line of the script, and those after it.
    pub fn call_all<R: Read + Drop>(
        &mut self,
        lines: &mut ScriptLines<R>,
        buffers: &mut Buffers,
    ) -> io::Result<()> {
        for _ in 0..u64::MAX {
            if lines.is_at_end() {
                break;
            }
            self.line(buffers, lines.number(), lines.current())?;
            lines.advance()?;
        }
        Ok(())
    }

    /// The script is through: what is told at the end, and the status of the program. The notes that are not spent are told as
    /// written off, which is left to whoever has them.
    pub fn close(self) -> io::Result<ExitCode> {
        let Caller {
            alloc,
            session,
            notes,
            mut teller,
        } = self;
        for line in session.final_lines(alloc, notes)?.iter() {
            teller.tell(*line)?;
        }
        teller.finish()
    }

    // What one line says.
    fn line(&mut self, buffers: &mut Buffers, number: u64, line: &[u8]) -> io::Result<()> {
        match read(line) {
            Ok(Command::Nothing) => Ok(()),
            Ok(Command::Setup(_)) => self.teller.unreadable(number, Unreadable::LateSetup),
            Ok(Command::Wire(length)) => {
                buffers.set_wire(length)?;
                Ok(())
            }
            Ok(Command::Buffer(length)) => {
                buffers.set_block(length)?;
                Ok(())
            }
            Ok(Command::Host(call)) => self.host(buffers, number, call),
            Ok(Command::Tnc(call)) => self.tnc(buffers, number, call),
            Err(why) => self.teller.unreadable(number, why),
        }
    }

    // A call of the host.
    fn host(&mut self, buffers: &mut Buffers, number: u64, call: HostCall) -> io::Result<()> {
        let verb = call.verb().name();
        let event = match call {
            HostCall::Open => self.session.host_open(buffers.wire.as_mut_slice()),
            HostCall::Step => self.session.host_step(buffers.wire.as_mut_slice()),
            HostCall::Timer => self
                .session
                .host_timer(self.notes, buffers.wire.as_mut_slice())?,
            HostCall::Hear(bytes) => return self.host_hear(buffers, number, bytes),
            HostCall::Submit { channel, block } => {
                let block = block.bytes(self.alloc)?;
                self.session.host_submit(channel, block.as_slice())
            }
            HostCall::Again { note, block } => {
                let block = block.bytes(self.alloc)?;
                self.session.host_again(self.notes, note, block.as_slice())
            }
            HostCall::WriteOff { note } => host_write_off(self.notes, note),
            HostCall::Collect { channel } => self
                .session
                .host_collect(channel, buffers.block.as_mut_slice()),
        };
        self.teller
            .called(number, End::Host, verb, Told { event, buffers })
    }

    // Each byte is one call.
    fn host_hear(&mut self, buffers: &Buffers, number: u64, bytes: Hex) -> io::Result<()> {
        for (i, byte) in bytes.bytes(self.alloc)?.iter().enumerate() {
            if let Some(event) = self.session.host_hear(self.notes, *byte)? {
                self.teller
                    .heard(number, End::Host, i + 1, Told { event, buffers })?;
            }
        }
        Ok(())
    }

    // A call of the TNC.
    fn tnc(&mut self, buffers: &mut Buffers, number: u64, call: TncCall) -> io::Result<()> {
        let verb = call.verb().name();
        let event = match call {
            TncCall::Hear(bytes) => return self.tnc_hear(buffers, number, bytes),
            TncCall::Submit { channel, block } => {
                let block = block.bytes(self.alloc)?;
                self.session.tnc_submit(channel, block.as_slice())
            }
            TncCall::Collect { channel } => self
                .session
                .tnc_collect(channel, buffers.block.as_mut_slice()),
        };
        self.teller
            .called(number, End::Tnc, verb, Told { event, buffers })
    }

    // Each byte is one call.
    fn tnc_hear(&mut self, buffers: &mut Buffers, number: u64, bytes: Hex) -> io::Result<()> {
        for (i, byte) in bytes.bytes(self.alloc)?.iter().enumerate() {
            if let Some(event) = self.session.tnc_hear(*byte, buffers.wire.as_mut_slice()) {
                self.teller
                    .heard(number, End::Tnc, i + 1, Told { event, buffers })?;
            }
        }
        Ok(())
    }
}
