// What a frame of the host asks.
ghost use Rattle.std.specs.Prelude.{◌≡◌};
ghost use Rattle.frame.specs.Head.{framed};
ghost use Rattle.frame.specs.Kinds.{host_shows};
ghost use Rattle.ends.specs.Frames.{load_in, request_of};
ghost use Rattle.ends.specs.Tnc.{is_general_poll};
ghost use Rattle.tnc.specs.Request.{load_shown, request_shown};

use frame::frames::HostFrame;
use frame::head::{Address, Head};

/// What a frame asks; its bytes are borrowed from the body.
#[derive(Clone, Copy)]
pub enum Load<'a> {
    Poll,
    Information(&'a [u8]),
    /// A command that is no poll.
    Command(&'a [u8]),
}

/// What a frame asks, with its head.
#[derive(Clone, Copy)]
pub struct Request<'a> {
    pub head: Head,
    pub load: Load<'a>,
}

impl<'a> Load<'a> {
    fn of(frame: HostFrame<'a>) -> Load<'a>
        ensures { load_shown result ≡ load_in (host_shows frame.entry).code (host_shows frame.entry).payload }
    {
        match frame {
            HostFrame::Information(block) => Load::Information(block),
            HostFrame::Command(b"G") => Load::Poll,
            HostFrame::Command(text) => Load::Command(text),
        }
    }
}

impl<'a> Request<'a> {
    /// What a frame with this head asks.
    pub(crate) fn of(head: Head, frame: HostFrame<'a>) -> Request<'a>
        ensures { request_shown result ≡ request_of (framed head (host_shows frame.entry)) }
    {
        Request {
            head,
            load: Load::of(frame),
        }
    }

    /// Whether it is the poll of no channel.
    pub(crate) fn is_general_poll(self) -> bool
        ensures { result ≡ is_general_poll (request_shown self.entry) }
    {
        matches!(
            (self.head.address, self.load),
            (Address::General, Load::Poll)
        )
    }
}
