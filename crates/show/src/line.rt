// The line from one end to the other: it takes a frame as it was written, and brings what the
// script makes of it.
use crate::script::Fate;
use order::line_rule::Passed;
use std::alloc::{AllocError, Global};

// Bytes that start no frame, a single AA among them.
const NOISE: [u8; 5] = [0x00, 0x5c, 0xaa, 0x0f, 0xff];

// A start before 71, which is no channel.
const FALSE_START: [u8; 3] = [0xaa, 0xaa, 0x71];

// The place of the byte that is damaged: behind the start, in the shortest frame too.
const DAMAGED: usize = 5;

/// What comes of one frame.
#[derive(Drop)]
pub struct Passage {
    /// The bytes that the line brings.
    pub bytes: Vec<u8>,
    // those that the end has heard by now
    heard: Vec<u8>,
    // the frame as it was written, and its place among all that the other end has written
    frame: Vec<u8>,
    place: usize,
}

impl Passage {
    /// The end has heard a byte.
    pub fn hear(&mut self, byte: u8) -> Result<(), AllocError> {
        self.heard.push(byte)?;
        Ok(())
    }

    /// A frame that passed with the byte that was heard last.
    pub fn passed(&self) -> Passed {
        Passed::new(self.place, self.heard.as_slice(), self.frame.as_slice())
    }

    fn copy(&self) -> Result<Passage, AllocError> {
        Ok(Passage {
            bytes: self.bytes.clone()?,
            heard: self.heard.clone()?,
            frame: self.frame.clone()?,
            place: self.place,
        })
    }
}

/// One direction of the line.
#[derive(Drop)]
pub struct Line {
    // what becomes of the next frames; after them all come clear
    script: &'static [Fate],
    // how many frames were written
    written: usize,
    late: Option<Passage>,
}

impl Line {
    pub fn new(script: &'static [Fate]) -> Line {
        Line {
            script,
            written: 0,
            late: None,
        }
    }

    /// Begins another script with the next frame.
    pub fn follow(&mut self, script: &'static [Fate]) {
        self.script = script;
    }

    /// What becomes of the next frame.
    pub fn fate(&self) -> Fate {
        self.script.first().copied().unwrap_or(Fate::Clear)
    }

    /// Takes a frame, and brings what comes to the other end's ear by then, in order.
    pub fn carry(&mut self, heap: Global, wire: &[u8]) -> Result<Vec<Passage>, AllocError> {
        let fate = self.fate();
        let passage = Passage {
            bytes: altered(heap, fate, wire)?,
            heard: Vec::new(heap),
            frame: Vec::from_slice(heap, wire)?,
            place: self.written,
        };
        self.script = self.script.get(1..).unwrap_or(&[]);
        self.written = self.written.saturating_add(1);
        let mut came = Vec::new(heap);
        if let Some(late) = self.late.take() {
            came.push(late)?;
        }
        match fate {
            Fate::Lost => {}
            Fate::Late => self.late = Some(passage),
            Fate::Twice => {
                let once_more = passage.copy()?;
                came.push(passage)?;
                came.push(once_more)?;
            }
            Fate::Clear | Fate::Noise | Fate::FalseStart | Fate::Damaged | Fate::Cut => {
                came.push(passage)?;
            }
        }
        Ok(came)
    }
}

// The bytes that come of a frame: what stands before it, and what is left of it.
fn altered(heap: Global, fate: Fate, wire: &[u8]) -> Result<Vec<u8>, AllocError> {
    let mut bytes = Vec::from_slice(heap, before(fate))?;
    if fate == Fate::Cut {
        bytes.extend_from_slice(&wire[..wire.len() / 2])?;
        return Ok(bytes);
    }
    bytes.extend_from_slice(wire)?;
    if fate == Fate::Damaged {
        if let Some(byte) = bytes.get_mut(DAMAGED) {
            *byte ^= 1;
        }
    }
    Ok(bytes)
}

// The bytes that come before a frame.
fn before(fate: Fate) -> &'static [u8] {
    match fate {
        Fate::Noise => &NOISE,
        Fate::FalseStart => &FALSE_START,
        Fate::Clear | Fate::Damaged | Fate::Cut | Fate::Lost | Fate::Late | Fate::Twice => &[],
    }
}
