// The lines of a script, one at a time: no more than one is kept.
use std::alloc::Global;
use std::io;
use std::io::{BufRead, BufReader, Read};

/// A script by lines, with the current line and its number.
#[derive(Drop)]
pub struct ScriptLines<R: Read + Drop> {
    reader: BufReader<R>,
    line: Vec<u8>,
    number: u64,
    ended: bool,
}

impl<R: Read + Drop> ScriptLines<R> {
    /// Before the first line.
    pub fn new(alloc: Global, reader: R) -> io::Result<ScriptLines<R>> {
        Ok(ScriptLines {
            reader: BufReader::new(alloc, reader)?,
            line: Vec::new(alloc),
            number: 0,
            ended: false,
        })
    }

    /// Goes on to the next line, if there is one.
    pub fn advance(&mut self) -> io::Result<bool> {
        self.line.clear();
        if self.reader.read_until(b'\n', &mut self.line)? == 0 {
            self.ended = true;
            return Ok(false);
        }
        self.number = self.number.saturating_add(1);
        Ok(true)
    }

    /// The current line.
    pub fn current(&self) -> &[u8] {
        self.line.as_slice()
    }

    /// Its number, from 1.
    pub fn number(&self) -> u64 {
        self.number
    }

    /// Whether no line is left, nor a current one.
    pub fn is_at_end(&self) -> bool {
        self.ended
    }
}
