// How an answer is written.
ghost use Rattle.std.specs.Prelude.{◌≡◌, ◌≤◌, length};
ghost use Rattle.frame.specs.Head.{byte_of};
ghost use Rattle.frame.specs.Kinds.{tnc_shows};
ghost use Rattle.wire.specs.Wire.{longest_wire};
ghost use Rattle.ends.specs.Frames.{answer_body};
ghost use Rattle.ends.specs.Sent.{over_wire, answer_length};
ghost use Rattle.tnc.specs.Held.{given_channel, given_reply, reply_shows, held_answer};

use super::{Given, Held};
use frame::frames::TncFrame;
use frame::head::{Address, Head};
use wire::writer::write;

impl Given {
    // Whom the answer is for.
    fn address(&self) -> Address
        ensures { byte_of result ≡ given_channel self.now }
    {
        match self {
            Given::Success(channel) | Given::NoPlace(channel) | Given::Block(channel, _) => {
                Address::Channel(*channel)
            }
            Given::NoChannel | Given::List(_) => Address::General,
            Given::Unknown(address) => *address,
        }
    }

    // What the answer carries.
    fn frame(&self) -> TncFrame<'_>
        ensures { tnc_shows result ≡ reply_shows (given_reply self.now) }
    {
        match self {
            Given::Success(_) => TncFrame::Success,
            Given::NoPlace(_) => TncFrame::Failure(b"NO PLACE"),
            Given::NoChannel => TncFrame::Failure(b"NO CHANNEL"),
            Given::Unknown(_) => TncFrame::Failure(b"UNKNOWN"),
            Given::List(list) => TncFrame::List(list.bytes()),
            Given::Block(_, block) => TncFrame::Information(block.bytes()),
        }
    }
}

impl Held {
    /// Writes the answer, and answers the length of its wire form.
    pub(crate) fn write(&self, wire: &mut [u8]) -> usize
        requires { longest_wire ≤ length wire.old }
        ensures value { result ≡ answer_length (held_answer self.now) }
        ensures bound { result ≤ length wire.old }
        ensures wire { wire.new ≡ over_wire (answer_body (held_answer self.now)) wire.old }
    {
        let head = Head {
            address: self.given.address(),
            reset: self.reset,
            toggle: self.toggle,
        };
        let Ok(n) = write(head, self.given.frame(), wire) else {
            unreachable!()
        };
        n
    }
}
