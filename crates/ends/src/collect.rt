// Collecting, at either end.
ghost use Rattle.std.specs.Prelude.{◌≡◌, ◌≤◌, length, IfOk};
ghost use Rattle.frame.specs.Frame.{longest_block};
ghost use Rattle.store.specs.Rules.{copy_source, written_over};
ghost use Rattle.ends.specs.Blocks.{collect_answer, collect_store};

use crate::refusal::Refusal;
use store::Store;

/// Hands out the first block of a channel, to the start of the buffer, and takes it from the store. Refuses 14, 10, 13.
pub fn collect<S: Store>(store: &mut S, channel: u8, buffer: &mut [u8]) -> Result<usize, Refusal>
    ensures answer { result ≡ collect_answer (S.Store.meaning store.old) channel (length buffer.old) }
    ensures bound { IfOk result (λ n. (n ≤ longest_block) × (n ≤ length buffer.old)) }
    ensures buffer { buffer.new ≡ written_over (copy_source (S.Store.meaning store.old) channel (length buffer.old)) buffer.old }
    ensures store { S.Store.meaning store.new ≡ collect_store (S.Store.meaning store.old) channel (length buffer.old) }
{
    let n = store.copy_first(channel, buffer)?;
    let _ = store.drop_first(channel);
    Ok(n)
}
