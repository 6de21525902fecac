// The reader's fields. Its methods stand in `hears`, since their clauses name it.
ghost use Rattle.std.specs.Prelude.{length};
ghost use Rattle.reader.specs.State.{Stands};

use crate::body::Body;
use crate::state::State;
use frame::form::Direction;

pub mod hears;

/// The longest body: channel, code, count and a block.
pub const BODY: usize = 259;

/// Hears one direction of the line, a byte at a time.
#[derive(Drop)]
pub struct Reader {
    direction: Direction,
    state: State,
    body: Body,
    // the raw bytes since the channel byte
    raw: u16,
    ghost stands: { Stands state (length body) raw },
}
