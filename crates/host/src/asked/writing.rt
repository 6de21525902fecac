// How the host's frames are made and written.
ghost use Rattle.std.specs.Prelude.{◌≡◌, ◌≤◌, length};
ghost use Rattle.frame.specs.declared.form.Form.TheVariants.{Counted};
ghost use Rattle.frame.specs.Frame.{Carries};
ghost use Rattle.frame.specs.Head.{byte_of};
ghost use Rattle.frame.specs.Kinds.{host_shows};
ghost use Rattle.wire.specs.Wire.{longest_wire};
ghost use Rattle.ends.specs.Sent.{over_wire, request_length};
ghost use Rattle.ends.specs.Frames.{request_body};
ghost use Rattle.host.specs.Asked.{asked_channel, asked_load, asked_request, load_shows};

use super::Asked;
use frame::frames::HostFrame;
use frame::head::{Address, Head};
use wire::writer::write;

// The poll command.
const POLL: HostFrame<'static> = HostFrame::Command(b"G");

impl Asked {
    // Whom the frame is for.
    fn address(&self) -> Address
        ensures { byte_of result ≡ asked_channel self.now }
    {
        match self {
            Asked::GeneralPoll => Address::General,
            Asked::ChannelPoll(channel) | Asked::Block(channel, _) => Address::Channel(*channel),
        }
    }

    // What the frame carries.
    fn frame(&self) -> HostFrame<'_>
        ensures shows { host_shows result ≡ load_shows (asked_load self.now) }
        ensures fits { Carries Counted (host_shows result).payload }
    {
        match self {
            Asked::GeneralPoll | Asked::ChannelPoll(_) => POLL,
            Asked::Block(_, block) => HostFrame::Information(block.bytes()),
        }
    }

    /// Writes the frame with this reset flag and toggle, and answers the length of its wire form.
    pub(crate) fn write(&self, reset: bool, toggle: bool, wire: &mut [u8]) -> usize
        requires { longest_wire ≤ length wire.old }
        ensures value { result ≡ request_length (asked_request self.now reset toggle) }
        ensures bound { result ≤ length wire.old }
        ensures wire { wire.new ≡ over_wire (request_body (asked_request self.now reset toggle)) wire.old }
    {
        let head = Head {
            address: self.address(),
            reset,
            toggle,
        };
        let Ok(n) = write(head, self.frame(), wire) else {
            unreachable!()
        };
        n
    }
}
