// What the TNC keeps. Its calls stand in the modules below, since their clauses name it.
ghost use Rattle.std.specs.Prelude.{◌≡◌, false};
ghost use Rattle.ends.specs.Ear.{heard_by, hears_tnc};

use crate::held::Held;
use ends::counts::Counts;
use ends::ear::Ear;

pub mod answering;
pub mod following;
pub mod going;
pub mod hearing;
pub mod making;
pub mod request;
pub mod storing;

/// The link as the TNC keeps it: all but what it hears with.
#[derive(Drop)]
pub struct Link {
    // the answer to the last frame accepted; none before the first reset. It has that frame's toggle.
    held: Option<Held>,
    counts: Counts,
}

/// The TNC end.
#[derive(Drop)]
pub struct Tnc {
    ear: Ear,
    link: Link,
    ghost from: { hears_tnc (heard_by ear).direction ≡ false },
}
