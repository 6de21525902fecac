// What the program keeps of its run, for what it tells at the end.
ghost use Rattle.std.specs.Prelude.{◌≡◌};

use crate::cargo::Cargo;
use crate::settled::Settled;
use order::line_rule::Passed;
use order::outcome::Outcome;
use order::sheet::Way;
use std::alloc::{AllocError, Global};

/// What went either way.
#[derive(Drop)]
pub struct Record {
    pub to_modem: Direction,
    pub to_terminal: Direction,
    /// How many blocks the modem's program had collected when the farewell was submitted.
    pub before_farewell: usize,
}

/// What went from one end to the other.
#[derive(Drop)]
pub struct Direction {
    // in the order of their numbers on the channel
    submissions: Vec<Submission>,
    /// The blocks that the other end's program collected.
    pub collected: Vec<Vec<u8>>,
    /// The frames that passed at the other end.
    pub passed: Vec<Passed>,
}

#[derive(Clone, Copy)]
struct Submission {
    cargo: Cargo,
    outcome: Outcome,
}

impl Record {
    pub fn new(heap: Global) -> Record {
        Record {
            to_modem: Direction::new(heap),
            to_terminal: Direction::new(heap),
            before_farewell: 0,
        }
    }
}

impl Direction {
    fn new(heap: Global) -> Direction {
        Direction {
            submissions: Vec::new(heap),
            collected: Vec::new(heap),
            passed: Vec::new(heap),
        }
    }

    /// One more submission, which waits.
    pub fn submit(&mut self, cargo: Cargo) -> Result<(), AllocError> {
        let outcome = Outcome::Waiting;
        self.submissions.push(Submission { cargo, outcome })?;
        Ok(())
    }

    /// Takes what became of a submission.
    pub fn settle(&mut self, settled: Settled) {
        if let Some(place) = place_of(settled.number) {
            if let Some(submission) = self.submissions.get_mut(place) {
                submission.outcome = settled.outcome;
            }
        }
    }

    /// What the submission of that number carries.
    pub fn cargo(&self, number: u32) -> Option<Cargo> {
        Some(self.submissions.get(place_of(number)?)?.cargo)
    }

    /// What became of each submission.
    pub fn outcomes(&self, heap: Global) -> Result<Vec<Outcome>, AllocError> {
        self.submissions
            .iter()
            .map(|submission| submission.outcome)
            .collect(heap)
    }

    /// All of it, with what became of each submission and how many blocks wait at the other end.
    pub fn way<'a>(&'a self, outcomes: &'a [Outcome], there: usize) -> Way<'a>
        ensures outcomes { result.outcomes.now ≡ outcomes.now }
        ensures collected { result.collected.now ≡ self.now.collected.items }
        ensures there { result.there ≡ there }
        ensures passed { result.passed.now ≡ self.now.passed.items }
    {
        Way {
            outcomes,
            collected: self.collected.as_slice(),
            there,
            passed: self.passed.as_slice(),
        }
    }

    /// The bytes of each submission, with the blocks of that order.
    pub fn blocks(&self, heap: Global, order: &[u8]) -> Result<Vec<Vec<u8>>, AllocError> {
        let mut blocks = Vec::new(heap);
        for submission in self.submissions.as_slice() {
            blocks.push(Vec::from_slice(heap, submission.cargo.bytes(order))?)?;
        }
        Ok(blocks)
    }
}

fn place_of(number: u32) -> Option<usize> {
    usize::try_from(number).ok()?.checked_sub(1)
}
