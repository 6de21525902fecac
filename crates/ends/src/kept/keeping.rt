// How a block is kept, and what is kept of it.
ghost use Rattle.std.specs.Prelude.{◌≡◌};
ghost use Rattle.std.specs.Option.{option_map};
ghost use Rattle.frame.specs.declared.form.Form.TheVariants.{Counted};
ghost use Rattle.frame.specs.Frame.{Carries};
ghost use Rattle.ends.specs.Kept.{block_of, first_of};

use super::KeptBlock;
use frame::form::BLOCK;
use poll::channel::Channel;
use store::Store;

impl KeptBlock {
    /// The first block of a channel, which stays in its store; none where none waits.
    pub fn first<O: Store>(channel: Channel, out: &O) -> Option<KeptBlock>
        ensures { option_map block_of result ≡ first_of ((O.Store.meaning out.now).waiting channel.number) }
    {
        let mut bytes = [0; BLOCK];
        let len = out.copy_first(channel.number(), &mut bytes).ok()?;
        Some(KeptBlock { len, bytes })
    }

    /// The bytes of the block, 1 to 256, which a frame carries.
    pub fn bytes(&self) -> &[u8]
        ensures value { result.now ≡ (block_of self.now).bytes }
        ensures fits { Carries Counted (block_of self.now).bytes }
    {
        &self.bytes[..self.len]
    }
}
