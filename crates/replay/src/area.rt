// The areas of strips, and which store is chosen for a place.
ghost use Rattle.std.specs.Prelude.{◌≡◌, Ok, vec_len};
ghost use Rattle.strip.specs.Refusal.{check_answer};

use crate::any_store::AnyStore;
use crate::buffers::at_most;
use shelf::Shelf;
use std::alloc::{AllocError, Global};
use strip::refusal::{AreaRefusal, check};
use strip::{LONGEST_AREA, Strip};

/// An area that a strip can be made of.
#[derive(Drop)]
pub struct Area {
    bytes: Vec<u8>,
    ghost granted: { check_answer (vec_len bytes) ≡ Ok tt },
}

/// Why there is no such area.
#[derive(Clone, Copy)]
pub enum AreaError {
    Refused(AreaRefusal),
    NoMemory,
}

/// The store that is chosen for a place.
#[derive(Drop)]
pub enum Choice {
    Shelf,
    Strip(Area),
}

impl From<AreaRefusal> for AreaError {
    ghost use Rattle.replay.specs.declared.area.AreaError.TheVariants.{Refused};

    ghost from_gives = { λ e r. r ≡ Refused e };

    fn from(e: AreaRefusal) -> AreaError {
        AreaError::Refused(e)
    }
}

impl From<AllocError> for AreaError {
    ghost use Rattle.replay.specs.declared.area.AreaError.TheVariants.{NoMemory};

    ghost from_gives = { λ _ r. r ≡ NoMemory };

    fn from(_e: AllocError) -> AreaError {
        AreaError::NoMemory
    }
}

impl Area {
    ghost use Rattle.std.specs.Prelude.{MatchResult};
    ghost use Rattle.replay.specs.Area.{NoArea};
    ghost use Rattle.replay.specs.Buffers.{zeros};

    /// An area of so many bytes, all of them 0. Of a length that no strip has, one byte more than the longest is enough to see that.
    pub fn new(alloc: Global, length: u64) -> Result<Area, AreaError>
        ensures { MatchResult result (λ a. a.bytes.items ≡ zeros length) (NoArea length) }
    {
        let bytes = vec![in alloc; 0; at_most(length, LONGEST_AREA + 1)]?;
        check(bytes.as_slice())?;
        Ok(Area { bytes })
    }
}

impl Choice {
    ghost use Rattle.replay.specs.Settings.{IsNewStore};

    /// A store of the chosen kind, empty, in its area.
    pub fn store(&mut self) -> AnyStore<'_>
        ensures { IsNewStore self.old result }
    {
        match self {
            Choice::Shelf => AnyStore::Shelf(Shelf::new()),
            Choice::Strip(area) => AnyStore::Strip(Strip::new(area.bytes.as_mut_slice())),
        }
    }
}
