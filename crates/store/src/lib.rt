// A block store by what it means: for each channel the waiting blocks, oldest first, and a limit.
// The ends of the link know this interface and no store.
#![tactic(auto)]

ghost use Rattle.std.specs.Prelude.{◌≡◌, ◌≤◌, length, IfOk};
ghost use Rattle.frame.specs.Frame.{longest_block};
ghost use Rattle.store.specs.Meaning.{Meaning, plain, total};
ghost use Rattle.store.specs.Rules.{put_answer, put_after, copy_source, length_of, written_over, drop_answer, drop_after, count_on};

use crate::refusal::Refusal;

pub mod checks;
pub mod play;
pub mod refusal;

/// A store of blocks. Every call answers for every input; a refusal leaves store and buffer as they were.
pub trait Store {
    ghost meaning: { Self → Meaning };

    /// Puts a block at the end of its channel. Refuses 10, 11, then 12 exactly when as many blocks wait as the limit.
    fn put(&mut self, channel: u8, block: &[u8]) -> Result<(), Refusal>
        ensures answer { result ≡ put_answer (meaning self.old) channel (plain block.now) }
        ensures after { meaning self.new ≡ put_after (meaning self.old) channel (plain block.now) };

    /// Shows a channel's first block: writes it over the beginning of the buffer, and answers its length. Refuses 14, 10, 13.
    fn copy_first(&self, channel: u8, buffer: &mut [u8]) -> Result<usize, Refusal>
        ensures answer { result ≡ length_of (copy_source (meaning self.now) channel (length buffer.old)) }
        ensures buffer { buffer.new ≡ written_over (copy_source (meaning self.now) channel (length buffer.old)) buffer.old }
        ensures sized { IfOk result (λ n. (1 ≤ n) × (n ≤ longest_block)) };

    /// Removes a channel's first block. Refuses 10, 13.
    fn drop_first(&mut self, channel: u8) -> Result<(), Refusal>
        ensures answer { result ≡ drop_answer (meaning self.old) channel }
        ensures after { meaning self.new ≡ drop_after (meaning self.old) channel };

    /// How many blocks wait on a channel; 0 above the highest.
    fn count(&self, channel: u8) -> usize
        ensures { result ≡ count_on (meaning self.now) channel };

    /// How many blocks wait on all channels together.
    fn total(&self) -> usize
        ensures value { result ≡ total (meaning self.now) }
        ensures bound { result ≤ (meaning self.now).limit };

    /// How many blocks may wait at most; it is at least 1 and never changes.
    fn limit(&self) -> usize
        ensures value { result ≡ (meaning self.now).limit }
        ensures bound { 1 ≤ result };
}
