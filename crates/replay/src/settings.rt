// What a script sets up before the first call.
ghost use Rattle.std.specs.Prelude.{◌≡◌, Some, OnOk, OnErr, IfErr, MatchResult};
ghost use Rattle.reader.specs.Read.{fresh};
ghost use Rattle.ends.specs.Ear.{heard_by};
ghost use Rattle.ends.specs.Host.{new_host};
ghost use Rattle.host.specs.Model.{host_of};
ghost use Rattle.replay.specs.declared.area.Choice.TheVariants as choice;
ghost use Rattle.replay.specs.Buffers.{zeros};
ghost use Rattle.replay.specs.Settings.{choose, SetUp, NotSetUp, error_words};

use crate::area::{Area, AreaError, Choice};
use crate::buffers::byte;
use ends::refusal::Refusal;
use frame::form::Direction;
use host::host::Host;
use script::command::Setup;
use script::name::{Named, Place};
use std::alloc::Global;
use std::fmt;
use strip::refusal::AreaRefusal;

// How often a frame is repeated where the script does not say.
const REPEATS: u8 = 3;

/// The four stores, as they are chosen.
#[derive(Drop)]
pub struct Choices {
    pub host_out: Choice,
    pub host_in: Choice,
    pub tnc_out: Choice,
    pub tnc_in: Choice,
}

/// What is set up so far: a host with its setting of repeats, and the stores.
#[derive(Drop)]
pub struct Settings {
    pub host: Host,
    pub choices: Choices,
}

/// Why a set-up is not made; what was set stays.
#[derive(Clone, Copy)]
pub enum SetupError {
    Repeats(Refusal),
    Store(Place, AreaRefusal),
    NoMemory,
}

impl Settings {
    /// As it is where the script sets up nothing: 3 repeats, four shelves.
    pub fn new() -> Settings
        ensures host { host_of result.host.link ≡ new_host 3 }
        ensures ear { heard_by result.host.ear ≡ fresh Direction.FromTnc }
        ensures choices { result.choices ≡ record {
          host_out = choice.Shelf;
          host_in = choice.Shelf;
          tnc_out = choice.Shelf;
          tnc_in = choice.Shelf;
        } }
    {
        Settings {
            host: Host::new(REPEATS).unwrap(),
            choices: Choices {
                host_out: Choice::Shelf,
                host_in: Choice::Shelf,
                tnc_out: Choice::Shelf,
                tnc_in: Choice::Shelf,
            },
        }
    }

    /// Sets up what a line says.
    pub fn set(&mut self, alloc: Global, setup: Setup) -> Result<(), SetupError>
        ensures ok { OnOk result (SetUp setup self.old self.new) }
        ensures err { OnErr result (self.new ≡ self.old) }
        ensures why { IfErr result (NotSetUp setup) }
    {
        match setup {
            Setup::Repeats(repeats) => {
                self.host = host_with(repeats)?;
            }
            Setup::Shelf(place) => self.choices.choose(place, Choice::Shelf),
            Setup::Strip(place, length) => {
                let area = area_at(alloc, place, length)?;
                self.choices.choose(place, Choice::Strip(area));
            }
        }
        Ok(())
    }
}

impl Choices {
    // Another store for a place.
    fn choose(&mut self, place: Place, choice: Choice)
        ensures { self.new ≡ choose place choice self.old }
    {
        match place {
            Place::HostOut => self.host_out = choice,
            Place::HostIn => self.host_in = choice,
            Place::TncOut => self.tnc_out = choice,
            Place::TncIn => self.tnc_in = choice,
        }
    }
}

// A host that repeats a frame so often. A number above 255 is no byte; it is refused as 255 is.
fn host_with(repeats: u64) -> Result<Host, SetupError>
    ensures { MatchResult result
        (λ h. (host_of h.link ≡ new_host repeats) × (heard_by h.ear ≡ fresh Direction.FromTnc))
        (NotSetUp (Setup.Repeats repeats)) }
{
    match Host::new(byte(repeats)) {
        Ok(host) => Ok(host),
        Err(refusal) => Err(SetupError::Repeats(refusal)),
    }
}

// An area for the strip of a place.
fn area_at(alloc: Global, place: Place, length: u64) -> Result<Area, SetupError>
    ensures { MatchResult result (λ a. a.bytes.items ≡ zeros length)
        (NotSetUp (Setup.Strip place length)) }
{
    match Area::new(alloc, length) {
        Ok(area) => Ok(area),
        Err(AreaError::Refused(refusal)) => Err(SetupError::Store(place, refusal)),
        Err(AreaError::NoMemory) => Err(SetupError::NoMemory),
    }
}

impl fmt::Display for SetupError {
    ghost output = { λ e. Some (error_words e) };

    fn fmt<W: fmt::Write>(&self, f: &mut fmt::Formatter<W>) -> fmt::Result {
        match self {
            SetupError::Repeats(refusal) => write!(f, "repeats refused {}", refusal.number()),
            SetupError::Store(place, refusal) => {
                write!(f, "store {} refused {}", place.name(), refusal.number())
            }
            SetupError::NoMemory => write!(f, "there is no memory for it"),
        }
    }
}
