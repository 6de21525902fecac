// Parsed frames of both directions. Each case borrows its message, list or block from the body.
ghost use Rattle.std.specs.Prelude.{◌≡◌, IsSome, IfSome};
ghost use Rattle.std.specs.Option.{option_map};
ghost use Rattle.frame.specs.declared.form.Direction.{Direction};
ghost use Rattle.frame.specs.declared.form.Direction.TheVariants.{FromHost, FromTnc};
ghost use Rattle.frame.specs.declared.head.Address.{Address};
ghost use Rattle.frame.specs.Frame.{form_of, IsReadAs};
ghost use Rattle.frame.specs.Head.{framed};
ghost use Rattle.frame.specs.Kinds.{Shown, shown_of, host_shows, tnc_shows, host_known, tnc_known, host_suits, tnc_suits};

use crate::form::{Direction, Form};
use crate::head::{Address, Head};

/// The parsed frames of one direction: a case for each code, with the payload that it borrows.
pub trait Parsed<'a>: Copy {
    // whose frames they are, the code and payload that each shows, and whether it is the case for an address
    ghost direction: { Direction };

    ghost shows: { Self → Shown };

    ghost suits: { Address → Self → Type 0 };

    /// Whose frames they are.
    fn direction() -> Direction
        ensures { result ≡ direction };

    /// The case of a code in a frame for that address, with the payload; none where the direction does not know the code.
    fn with(address: Address, code: u8, payload: &'a [u8]) -> Option<Self>
        ensures shows { option_map shows result ≡ shown_of direction code payload.now }
        ensures suits { IfSome result (suits address) };

    /// The code of its case. (A match in each impl: a case with a field has no number of its own.)
    fn code(self) -> u8
        ensures { result ≡ (shows self).code };

    /// What it carries; nothing in a case without a payload.
    fn payload(self) -> &'a [u8]
        ensures { result.now ≡ (shows self).payload };

    // each case has a code that the direction knows
    ghost known: { (f : Self) → IsSome (form_of direction (shows f).code) };
}

/// A frame from the host. Its payload has 1 to 256 bytes.
#[derive(Clone, Copy)]
pub enum HostFrame<'a> {
    Information(&'a [u8]),
    Command(&'a [u8]),
}

/// A frame from the TNC.
#[derive(Clone, Copy)]
pub enum TncFrame<'a> {
    /// Done, and nothing follows.
    Success,
    /// Done, with a message for a channel.
    Message(&'a [u8]),
    /// Done, with the poll list that answers the general poll: listed values, which `PollList::read` checks.
    List(&'a [u8]),
    Failure(&'a [u8]),
    Status(&'a [u8]),
    /// The header of a monitored frame without information.
    HeaderAlone(&'a [u8]),
    /// The header of a monitored frame whose information comes next.
    HeaderFirst(&'a [u8]),
    Monitored(&'a [u8]),
    Information(&'a [u8]),
}

impl<'a> Parsed<'a> for HostFrame<'a> {
    ghost direction = { FromHost };

    ghost shows = { host_shows };

    ghost suits = { host_suits };

    ghost known = { host_known };

    fn direction() -> Direction
        ensures { result ≡ FromHost }
    {
        Direction::FromHost
    }

    #[inline(always)]
    fn with(_address: Address, code: u8, payload: &'a [u8]) -> Option<HostFrame<'a>>
        ensures shows { option_map host_shows result ≡ shown_of FromHost code payload.now }
        ensures suits { IfSome result (host_suits _address) }
    {
        match code {
            0 => Some(HostFrame::Information(payload)),
            1 => Some(HostFrame::Command(payload)),
            _ => None,
        }
    }

    fn code(self) -> u8
        ensures { result ≡ (host_shows self.entry).code }
    {
        match self {
            HostFrame::Information(_) => 0,
            HostFrame::Command(_) => 1,
        }
    }

    fn payload(self) -> &'a [u8]
        ensures { result.now ≡ (host_shows self.entry).payload }
    {
        match self {
            HostFrame::Information(block) | HostFrame::Command(block) => block,
        }
    }
}

impl<'a> Parsed<'a> for TncFrame<'a> {
    ghost direction = { FromTnc };

    ghost shows = { tnc_shows };

    ghost suits = { tnc_suits };

    ghost known = { tnc_known };

    fn direction() -> Direction
        ensures { result ≡ FromTnc }
    {
        Direction::FromTnc
    }

    #[inline(always)]
    fn with(address: Address, code: u8, payload: &'a [u8]) -> Option<TncFrame<'a>>
        ensures shows { option_map tnc_shows result ≡ shown_of FromTnc code payload.now }
        ensures suits { IfSome result (tnc_suits address) }
    {
        match (code, address) {
            (0, _) => Some(TncFrame::Success),
            (1, Address::Channel(_)) => Some(TncFrame::Message(payload)),
            (1, Address::General) => Some(TncFrame::List(payload)),
            (2, _) => Some(TncFrame::Failure(payload)),
            (3, _) => Some(TncFrame::Status(payload)),
            (4, _) => Some(TncFrame::HeaderAlone(payload)),
            (5, _) => Some(TncFrame::HeaderFirst(payload)),
            (6, _) => Some(TncFrame::Monitored(payload)),
            (7, _) => Some(TncFrame::Information(payload)),
            _ => None,
        }
    }

    fn code(self) -> u8
        ensures { result ≡ (tnc_shows self.entry).code }
    {
        match self {
            TncFrame::Success => 0,
            TncFrame::Message(_) | TncFrame::List(_) => 1,
            TncFrame::Failure(_) => 2,
            TncFrame::Status(_) => 3,
            TncFrame::HeaderAlone(_) => 4,
            TncFrame::HeaderFirst(_) => 5,
            TncFrame::Monitored(_) => 6,
            TncFrame::Information(_) => 7,
        }
    }

    fn payload(self) -> &'a [u8]
        ensures { result.now ≡ (tnc_shows self.entry).payload }
    {
        match self {
            TncFrame::Success => &[],
            TncFrame::Message(text)
            | TncFrame::List(text)
            | TncFrame::Failure(text)
            | TncFrame::Status(text)
            | TncFrame::HeaderAlone(text)
            | TncFrame::HeaderFirst(text) => text,
            TncFrame::Monitored(block) | TncFrame::Information(block) => block,
        }
    }
}

/// Reads a body: its head and its frame, or none where it is that of no frame of the direction.
pub fn read<'a, F: Parsed<'a>>(body: &'a [u8]) -> Option<(Head, F)>
    ensures reads { IsReadAs F.direction body.now (option_map (λ r. framed r.0 (F.shows r.1)) result) }
    ensures suits { IfSome result (λ r. F.suits r.0.address r.1) }
{
    let [channel, code, rest @ ..] = body else {
        return None;
    };
    let head = Head::of(*channel, *code)?;
    let code = code & 0x3f;
    let payload = Form::of(F::direction(), code)?.payload(rest)?;
    let frame = F::with(head.address, code, payload)?;
    Some((head, frame))
}
