// The words that a script has in fixed places.
ghost use Rattle.std.specs.Prelude.{◌≡◌, List, ℕ};
ghost use Rattle.std.specs.List.{find};
ghost use Rattle.std.specs.Str.{bytes_eq};
ghost use Rattle.script.specs.Names.{first_name, place_name, kind_name, host_name, tnc_name, named_in};

use crate::unreadable::Unreadable;

/// Something that a script calls by one word.
pub trait Named: Copy + Drop {
    ghost name_of: { Self → List ℕ };

    /// Its word.
    fn name(self) -> &'static str
        ensures { result.now ≡ name_of self };
}

/// The one of all that a word names. Where there is no word, one is missing.
pub fn one_named<T: Named>(all: &[T], word: &[u8]) -> Result<T, Unreadable>
    ensures { result ≡ named_in T.name_of all.now word.now }
{
    if word.is_empty() {
        return Err(Unreadable::MissingWord);
    }
    find_named(all, word).ok_or(Unreadable::UnknownWord)
}

// The first of all whose word it is.
fn find_named<T: Named>(all: &[T], word: &[u8]) -> Option<T>
    ensures { result ≡ find (λ one. bytes_eq (T.name_of one) word.now) all.now }
{
    all.iter()
        .copied()
        .find(|one| one.name().as_bytes() == word)
}

/// The first word of a line.
#[derive(Clone, Copy)]
pub enum First {
    Repeats,
    Store,
    Wire,
    Buffer,
    Host,
    Tnc,
}

/// A store of the ends.
#[derive(Clone, Copy)]
pub enum Place {
    HostOut,
    HostIn,
    TncOut,
    TncIn,
}

/// The kinds of stores.
#[derive(Clone, Copy)]
pub enum Kind {
    Shelf,
    Strip,
}

/// The calls of the host.
#[derive(Clone, Copy)]
pub enum HostVerb {
    Open,
    Step,
    Timer,
    Hear,
    Submit,
    Again,
    WriteOff,
    Collect,
}

/// The calls of the TNC.
#[derive(Clone, Copy)]
pub enum TncVerb {
    Hear,
    Submit,
    Collect,
}

impl Named for First {
    ghost name_of = { first_name };

    fn name(self) -> &'static str {
        match self {
            First::Repeats => "repeats",
            First::Store => "store",
            First::Wire => "wire",
            First::Buffer => "buffer",
            First::Host => "host",
            First::Tnc => "tnc",
        }
    }
}

impl Named for Place {
    ghost name_of = { place_name };

    fn name(self) -> &'static str {
        match self {
            Place::HostOut => "host-out",
            Place::HostIn => "host-in",
            Place::TncOut => "tnc-out",
            Place::TncIn => "tnc-in",
        }
    }
}

impl Named for Kind {
    ghost name_of = { kind_name };

    fn name(self) -> &'static str {
        match self {
            Kind::Shelf => "shelf",
            Kind::Strip => "strip",
        }
    }
}

impl Named for HostVerb {
    ghost name_of = { host_name };

    fn name(self) -> &'static str {
        match self {
            HostVerb::Open => "open",
            HostVerb::Step => "step",
            HostVerb::Timer => "timer",
            HostVerb::Hear => "hear",
            HostVerb::Submit => "submit",
            HostVerb::Again => "again",
            HostVerb::WriteOff => "write-off",
            HostVerb::Collect => "collect",
        }
    }
}

impl Named for TncVerb {
    ghost name_of = { tnc_name };

    fn name(self) -> &'static str {
        match self {
            TncVerb::Hear => "hear",
            TncVerb::Submit => "submit",
            TncVerb::Collect => "collect",
        }
    }
}

/// All first words.
pub const FIRSTS: [First; 6] = [
    First::Repeats,
    First::Store,
    First::Wire,
    First::Buffer,
    First::Host,
    First::Tnc,
];

/// All stores.
pub const PLACES: [Place; 4] = [Place::HostOut, Place::HostIn, Place::TncOut, Place::TncIn];

/// All kinds of stores.
pub const KINDS: [Kind; 2] = [Kind::Shelf, Kind::Strip];

/// All calls of the host.
pub const HOST_VERBS: [HostVerb; 8] = [
    HostVerb::Open,
    HostVerb::Step,
    HostVerb::Timer,
    HostVerb::Hear,
    HostVerb::Submit,
    HostVerb::Again,
    HostVerb::WriteOff,
    HostVerb::Collect,
];

/// All calls of the TNC.
pub const TNC_VERBS: [TncVerb; 3] = [TncVerb::Hear, TncVerb::Submit, TncVerb::Collect];
