// Plays a list of calls on a store of any kind, and says the laws of every such list.
ghost use Rattle.std.specs.Prelude.{◌≡◌, ℕ};
ghost use Rattle.store.specs.Meaning.{empty};
ghost use Rattle.store.specs.Calls.{Kept, StoreLaws, store_after, after, begun};
ghost use Rattle.store.specs.Steps.{call_of, calls_of};

use crate::Store;

/// A call that may change a store. (The others are given the store to read.)
#[derive(Clone, Copy)]
pub enum Step<'a> {
    /// Puts a block on a channel.
    Put(u8, &'a [u8]),
    DropFirst(u8),
}

/// Makes the calls one after another, refused ones too. The store is then as the run of these calls says,
/// and the laws hold of every run: of this one too, where the store was empty.
pub fn play<S: Store>(store: &mut S, steps: &[Step])
    ensures after { S.Store.meaning store.new ≡ (after (calls_of steps.now) (begun (S.Store.meaning store.old))).store }
    ensures kept { (n : ℕ) → S.Store.meaning store.old ≡ empty n → Kept n (after (calls_of steps.now) (begun (S.Store.meaning store.old))) }
    ensures laws { StoreLaws }
{
    for step in steps {
        make(store, *step);
    }
}

// Makes one call.
fn make<S: Store>(store: &mut S, step: Step)
    ensures { S.Store.meaning store.new ≡ store_after (call_of step.entry) (S.Store.meaning store.old) }
{
    match step {
        Step::Put(channel, block) => {
            let _ = store.put(channel, block);
        }
        Step::DropFirst(channel) => {
            let _ = store.drop_first(channel);
        }
    }
}
