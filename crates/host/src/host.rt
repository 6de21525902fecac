// What the host keeps. Its calls stand in the modules below, since their clauses name it.
ghost use Rattle.std.specs.Prelude.{◌≡◌, ◌≤◌, true};
ghost use Rattle.ends.specs.Limits.{most_repeats};
ghost use Rattle.ends.specs.Ear.{heard_by, hears_tnc};

use crate::asked::Asked;
use ends::counts::Counts;
use ends::ear::Ear;
use poll::list::PollList;

pub mod apply;
pub mod falling;
pub mod hearing;
pub mod making;
pub mod opening;
pub mod rule;
pub mod stepping;
pub mod submitting;
pub mod timing;

/// Where the host stands.
#[derive(Clone, Copy)]
pub enum State {
    Fresh,
    /// The reset is on its way; so many repeats since that open.
    Opening { repeats: u8 },
    Idle,
    /// A frame that asks this is unanswered.
    OnItsWay(Asked, Sent),
    Down,
}

/// How the frame on its way was sent: its toggle, and how often it was repeated.
#[derive(Clone, Copy)]
pub struct Sent {
    pub toggle: bool,
    pub repeats: u8,
}

/// The link as the host keeps it: all but what it hears with.
#[derive(Drop)]
pub struct Link {
    // how often a frame is repeated
    setting: u8,
    state: State,
    // the toggle of this generation's resets
    generation: bool,
    // the toggle of the last answer taken
    last: bool,
    // how many frames out of sequence may still come
    spare: u16,
    // how often this generation's reset was sent
    resets: u32,
    // the channels left to poll
    list: PollList,
    // whether the last answer taken refused a block
    refused: bool,
    counts: Counts,
    ghost few: { setting ≤ most_repeats },
}

/// The host end.
#[derive(Drop)]
pub struct Host {
    ear: Ear,
    link: Link,
    ghost from: { hears_tnc (heard_by ear).direction ≡ true },
}
