// What the sheet at the end is made of.
ghost use Rattle.std.specs.Prelude.{◌≡◌, IfOk};

use crate::own::FAREWELL;
use crate::record::Record;
use crate::there::There;
use order::sheet::{Sent, Sheet};
use std::alloc::{AllocError, Global};

/// The sheet of a run that was to bring that order.
pub fn sheet(heap: Global, order: &[u8], record: &Record, there: There) -> Result<Sheet, AllocError>
    ensures to_modem { IfOk result (λ s. s.to_modem.there ≡ there.at_modem) }
    ensures to_terminal { IfOk result (λ s. s.to_terminal.there ≡ there.at_terminal) }
{
    let Record {
        to_modem,
        to_terminal,
        before_farewell,
    } = record;
    let texts = to_terminal.blocks(heap, order)?;
    let from_modem = to_terminal.outcomes(heap)?;
    let from_terminal = to_modem.outcomes(heap)?;
    let sent = Sent {
        order,
        farewell: FAREWELL.as_bytes(),
        texts: texts.as_slice(),
    };
    Sheet::of(
        heap,
        &sent,
        &to_modem.way(from_terminal.as_slice(), there.at_modem),
        &to_terminal.way(from_modem.as_slice(), there.at_terminal),
        *before_farewell,
    )
}
