// What a line of a script says.
ghost use Rattle.std.specs.Prelude.{◌≡◌};
ghost use Rattle.script.specs.Verbs.{host_verb, tnc_verb};

use crate::digits::Hex;
use crate::name::{HostVerb, Place, TncVerb};

/// What stands before the first call.
#[derive(Clone, Copy)]
pub enum Setup {
    /// How often the host repeats a frame.
    Repeats(u64),
    /// A shelf for the store.
    Shelf(Place),
    /// A strip for the store, in an area of so many bytes.
    Strip(Place, u64),
}

/// A call of the host.
#[derive(Clone, Copy)]
pub enum HostCall<'a> {
    Open,
    Step,
    Timer,
    Hear(Hex<'a>),
    Submit { channel: u64, block: Hex<'a> },
    Again { note: u64, block: Hex<'a> },
    WriteOff { note: u64 },
    Collect { channel: u64 },
}

/// A call of the TNC.
#[derive(Clone, Copy)]
pub enum TncCall<'a> {
    Hear(Hex<'a>),
    Submit { channel: u64, block: Hex<'a> },
    Collect { channel: u64 },
}

/// What a line says.
#[derive(Clone, Copy)]
pub enum Command<'a> {
    /// Nothing: the line is empty, or a comment.
    Nothing,
    Setup(Setup),
    /// The wire buffers of later calls have so many bytes.
    Wire(u64),
    /// The block buffers of later calls have so many bytes.
    Buffer(u64),
    Host(HostCall<'a>),
    Tnc(TncCall<'a>),
}

impl HostCall<'_> {
    /// Which call it is.
    pub fn verb(&self) -> HostVerb
        ensures { result ≡ host_verb self.now }
    {
        match self {
            HostCall::Open => HostVerb::Open,
            HostCall::Step => HostVerb::Step,
            HostCall::Timer => HostVerb::Timer,
            HostCall::Hear(_) => HostVerb::Hear,
            HostCall::Submit { .. } => HostVerb::Submit,
            HostCall::Again { .. } => HostVerb::Again,
            HostCall::WriteOff { .. } => HostVerb::WriteOff,
            HostCall::Collect { .. } => HostVerb::Collect,
        }
    }
}

impl TncCall<'_> {
    /// Which call it is.
    pub fn verb(&self) -> TncVerb
        ensures { result ≡ tnc_verb self.now }
    {
        match self {
            TncCall::Hear(_) => TncVerb::Hear,
            TncCall::Submit { .. } => TncVerb::Submit,
            TncCall::Collect { .. } => TncVerb::Collect,
        }
    }
}
