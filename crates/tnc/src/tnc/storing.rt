// The blocks that a program gives the TNC to send, and those that it takes from it.
ghost use Rattle.std.specs.Prelude.{◌≡◌, ◌≤◌, [], ◌∷◌, length, take, IfOk, is_ok};
ghost use Rattle.std.specs.Result.{result_unwrap_or};
ghost use Rattle.frame.specs.Frame.{longest_block};
ghost use Rattle.store.specs.Meaning.{Meaning, plain};
ghost use Rattle.store.specs.Rules.{copy_source, written_over};
ghost use Rattle.ends.specs.Blocks.{submit_answer, submit_counts, submit_store, collect_answer, collect_store};
ghost use Rattle.ends.specs.Tnc.{tnc_counts};
ghost use Rattle.law.specs.Runs.{submitting, collecting, tnc_submit, tnc_collect};
ghost use Rattle.law.specs.Sides.{TncLaw, unchanged};
ghost use Rattle.tnc.specs.Model.{tnc_of};
ghost use Rattle.tnc.specs.Side.{side};

use super::Tnc;
use ends::collect::collect;
use ends::refusal::Refusal;
use store::Store;

impl Tnc {
    /// Puts a block into the outgoing store, and answers its number on the channel. Refuses 10, 11, 15, then as the store.
    pub fn submit<O: Store>(
        &mut self,
        out: &mut O,
        channel: u8,
        block: &[u8],
    ) -> Result<u32, Refusal>
        ensures answer { result ≡ submit_answer (tnc_of self.old.link).submitted (O.Store.meaning out.old) channel (plain block.now) }
        ensures after { tnc_of self.new.link ≡ tnc_counts (tnc_of self.old.link) (submit_counts (tnc_of self.old.link).submitted (O.Store.meaning out.old) channel (plain block.now)) }
        ensures out { O.Store.meaning out.new ≡ submit_store (tnc_of self.old.link).submitted (O.Store.meaning out.old) channel (plain block.now) }
        ensures ear { self.new.ear ≡ self.old.ear }
        ensures law { (inn : Meaning) → TncLaw (tnc_submit channel (plain block.now))
            (side self.old (O.Store.meaning out.old) inn)
            (side self.new (O.Store.meaning out.new) inn)
            [] (submitting (is_ok result) channel (plain block.now)) unchanged }
    {
        self.link.counts.submit(out, channel, block)
    }

    /// Hands out the first block of a channel, to the start of the buffer, and takes it from the incoming store.
    /// Refuses 14, 10, 13.
    pub fn collect<I: Store>(
        &self,
        inn: &mut I,
        channel: u8,
        buffer: &mut [u8],
    ) -> Result<usize, Refusal>
        ensures answer { result ≡ collect_answer (I.Store.meaning inn.old) channel (length buffer.old) }
        ensures bound { IfOk result (λ n. (n ≤ longest_block) × (n ≤ length buffer.old)) }
        ensures buffer { buffer.new ≡ written_over (copy_source (I.Store.meaning inn.old) channel (length buffer.old)) buffer.old }
        ensures inn { I.Store.meaning inn.new ≡ collect_store (I.Store.meaning inn.old) channel (length buffer.old) }
        ensures law { (out : Meaning) → TncLaw (tnc_collect channel (length buffer.old))
            (side self.now out (I.Store.meaning inn.old))
            (side self.now out (I.Store.meaning inn.new))
            [] unchanged (collecting (is_ok result) channel (plain (take (result_unwrap_or result 0) buffer.new) ∷ [])) }
    {
        collect(inn, channel, buffer)
    }
}
