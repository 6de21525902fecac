// The doubt note: what a host hands out for a block that may or may not have arrived.
ghost use Rattle.std.specs.Prelude.{◌≡◌, ◌<◌};

/// A doubtful block, by channel and number. It is written off or submitted again: it may not be let fall,
/// and it is spent by either. Number 0 is the spent note; no block has it. (Two plain numbers, which its holder can write down,
/// and a `drop` that demands that it was spent: docs/DECISIONS.md says why.)
pub struct DoubtNote {
    channel: u8,
    number: u32,
}

impl Drop for DoubtNote {
    /// Only a spent note ends.
    fn drop(self)
        requires { self.number ≡ 0 }
    {
        let DoubtNote {
            channel: _,
            number: _,
        } = self;
    }
}

impl DoubtNote {
    /// The note of a doubtful block.
    pub(crate) fn new(channel: u8, number: u32) -> DoubtNote
        ensures { result ≡ record { channel = channel; number = number } }
    {
        DoubtNote { channel, number }
    }

    /// The block's channel.
    pub fn channel(&self) -> u8
        ensures { result ≡ self.now.channel }
    {
        self.channel
    }

    /// The block's number on its channel; 0 of a spent note.
    pub fn number(&self) -> u32
        ensures { result ≡ self.now.number }
    {
        self.number
    }

    /// Spends the note, always: the block is given up, and if it has arrived after all, that is well.
    pub fn write_off(mut self) {
        if self.number > 0 {
            self.spend();
        }
    }

    /// Spends the note in place; a spent one is not taken.
    pub(crate) fn spend(&mut self)
        requires { 0 < self.old.number }
        ensures { self.new ≡ record { channel = self.old.channel; number = 0 } }
    {
        self.number = 0;
    }
}
