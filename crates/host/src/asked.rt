// What a frame of the host asks. How it is written stands in `writing`, since its clauses name this type.
use ends::kept::KeptBlock;
use poll::channel::Channel;

pub mod writing;

/// What a frame of the host asks.
#[derive(Clone, Copy)]
pub enum Asked {
    GeneralPoll,
    ChannelPoll(Channel),
    /// The TNC is to take this block on the channel.
    Block(Channel, KeptBlock),
}
