// A session of terminal and modem: the programs at both ends, and the line between them. It says
// which calls are made next, and takes what they answer.
use crate::cargo::Cargo;
use crate::line::{Line, Passage};
use crate::record::Record;
use crate::script::{TO_MODEM, TO_TERMINAL};
use anyhow::Error;
use host::note::DoubtNote;

pub mod answers;
pub mod modem;
pub mod next;
pub mod terminal;

/// The channel that all blocks go by.
pub const CHANNEL: u8 = 33;

// How far the session is.
#[derive(Clone, Copy, PartialEq, Eq)]
enum Stage {
    /// The link is not opened yet.
    Fresh,
    /// The order is on its way.
    Order,
    /// The modem's reply is.
    Reply,
    /// The terminal's last word is.
    Farewell,
}

// What an answer asks for.
#[derive(Drop)]
enum Task {
    ModemHears(Passage),
    ModemCollects,
    TerminalHears(Passage),
    TerminalCollects,
    /// A doubtful block goes once more.
    TerminalSubmitsAgain(Cargo),
}

/// The programs at both ends, at work on an order.
pub struct Session<'a> {
    rt: &'a HostRuntime,
    text: &'a [u8],
    to_modem: Line,
    to_terminal: Line,
    stage: Stage,
    // what is to be done, the next last
    tasks: Vec<Task>,
    // the block of the order that is submitted next
    next: usize,
    // whether there may be room for it
    room: bool,
    // the block of which it was told last that it has to wait
    told: Option<usize>,
    // what is submitted with the calls that are made
    offered: Cargo,
    // what is heard with them
    hearing: Option<Passage>,
    record: Record,
    // the note of a block that is to be submitted again
    held: Option<DoubtNote>,
    // whether the next note is written off
    gives_up: bool,
    // why nothing more can be told or done
    failed: Option<Error>,
}

impl<'a> Session<'a> {
    /// A session on an order, before the link is opened.
    pub fn new(rt: &'a HostRuntime, text: &'a [u8]) -> Session<'a> {
        Session {
            rt,
            text,
            to_modem: Line::new(&TO_MODEM),
            to_terminal: Line::new(&TO_TERMINAL),
            stage: Stage::Fresh,
            tasks: Vec::new(rt.alloc()),
            next: 0,
            room: true,
            told: None,
            offered: Cargo::Greeting,
            hearing: None,
            record: Record::new(rt.alloc()),
            held: None,
            gives_up: false,
            failed: None,
        }
    }

    /// The record of the run, or why the session could not go on. A note that is held is written
    /// off.
    pub fn finish(self) -> anyhow::Result<Record> {
        let Session {
            record,
            held,
            failed,
            rt: _,
            text: _,
            to_modem: _,
            to_terminal: _,
            stage: _,
            tasks: _,
            next: _,
            room: _,
            told: _,
            offered: _,
            hearing: _,
            gives_up: _,
        } = self;
        if let Some(note) = held {
            note.write_off();
        }
        match failed {
            None => Ok(record),
            Some(error) => Err(error),
        }
    }
}
