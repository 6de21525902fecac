// The doubt notes that are not spent yet, by the numbers that they got as they were handed out.
ghost use Rattle.std.specs.Prelude.{◌≡◌, ◌<◌, ◌≤◌, [], Some, OnOk, IfSome, option_and_then, insert, remove, slice_get, vec_len, vec_capacity};
ghost use Rattle.replay.specs.Notes.{next_number, note_of, place_of, unspent_of, with_note, without};

use host::note::DoubtNote;
use std::alloc::{AllocError, Global};

/// A note and its number.
pub struct Kept {
    pub number: u64,
    pub note: DoubtNote,
}

/// The notes that are not spent yet, the oldest first.
pub struct Notes {
    kept: Vec<Kept>,
    // how many were handed out
    handed: u64,
}

impl Notes {
    /// No note was handed out.
    pub fn new(alloc: Global) -> Notes
        ensures { unspent_of result ≡ record { handed = 0; kept = [] } }
    {
        Notes {
            kept: Vec::new(alloc),
            handed: 0,
        }
    }

    // All that are not spent, the oldest first.
    pub(crate) fn kept(&self) -> &[Kept]
        ensures { result.now ≡ (unspent_of self.now).kept }
    {
        self.kept.as_slice()
    }

    // Takes memory for one note more, where there is none yet.
    pub(crate) fn reserve(&mut self) -> Result<(), AllocError>
        ensures unspent { unspent_of self.new ≡ unspent_of self.old }
        ensures room { OnOk result (vec_len self.new.kept < vec_capacity self.new.kept) }
    {
        self.kept.reserve(1)
    }

    // Keeps a note that is handed out now, and answers its number.
    pub(crate) fn keep(&mut self, note: DoubtNote) -> u64
        requires { vec_len self.old.kept < vec_capacity self.old.kept }
        ensures number { result ≡ next_number (unspent_of self.old) }
        ensures unspent { unspent_of self.new ≡ with_note (Some note) (unspent_of self.old) }
    {
        self.handed = self.handed.saturating_add(1);
        let number = self.handed;
        self.kept.push_reserved(Kept { number, note });
        number
    }

    // Where the note of a number stands.
    pub(crate) fn place(&self, number: u64) -> Option<usize>
        ensures place { result ≡ place_of number (unspent_of self.now) }
        ensures within { IfSome result (λ i. i < vec_len self.now.kept) }
        ensures note { note_of number (unspent_of self.now)
            ≡ option_and_then (slice_get self.now.kept.items) result }
    {
        self.first_of(number)
    }

    // Where the first note of a number stands.
    fn first_of(&self, number: u64) -> Option<usize>
        ensures { result ≡ place_of number (unspent_of self.now) }
    {
        self.kept.iter().position(|kept| kept.number == number)
    }

    // Takes out the note at a place. Its room stays.
    pub(crate) fn take(&mut self, place: usize) -> Kept
        requires { place < vec_len self.old.kept }
        ensures value { slice_get self.old.kept.items place ≡ Some result }
        ensures kept { self.new.kept.items ≡ remove self.old.kept.items place }
        ensures room { vec_len self.new.kept < vec_capacity self.new.kept }
        ensures handed { self.new.handed ≡ self.old.handed }
    {
        self.kept.remove(place)
    }

    // Puts a note back to the place that it was taken from.
    pub(crate) fn put_back(&mut self, place: usize, kept: Kept)
        requires within { place ≤ vec_len self.old.kept }
        requires room { vec_len self.old.kept < vec_capacity self.old.kept }
        ensures kept { self.new.kept.items ≡ insert self.old.kept.items place kept }
        ensures handed { self.new.handed ≡ self.old.handed }
    {
        self.kept.insert(place, kept).unwrap();
    }

    /// Writes off all that are not spent.
    pub fn write_off(mut self) {
        while let Some(kept) = self.kept.pop() {
            kept.write_off();
        }
        let Notes { kept, handed: _ } = self;
        kept.destroy_empty();
    }
}

impl Kept {
    /// Spends the note: its block is given up.
    pub fn write_off(self) {
        let Kept { number: _, note } = self;
        note.write_off();
    }
}
