// The writer: frames of both directions in their wire form.
ghost use Rattle.std.specs.Prelude.{◌≡◌, ℕ, ◌+◌, ◌<◌, ◌≤◌, [], ◌∷◌, ◌++◌, length};
ghost use Rattle.fcs.specs.Fcs.{check_of};
ghost use Rattle.frame.specs.Frame.{code_byte_of};
ghost use Rattle.frame.specs.Head.{framed};
ghost use Rattle.frame.specs.Kinds.{shows};
ghost use Rattle.wire.specs.Wire.{stuff, stuffed, wire_of, over, refusal_number, Writes, WireIsShort, Lays};

use frame::form::Form;
use frame::frames::Parsed;
use frame::head::Head;

/// The shortest buffer that a frame is written to. No wire form is longer.
pub const WIRE: usize = 521;

/// Two of these start a frame; one inside a frame is followed by 00.
pub const MARK: u8 = 0xaa;

/// Why a frame is not written.
#[derive(Clone, Copy, PartialEq, Eq, Debug)]
pub enum Refusal {
    /// The wire buffer has fewer than 521 bytes.
    ShortWire = 14,
    /// No frame of this kind carries the payload: a block of 0 or above 256 bytes, a text above 255 or with a 00 inside.
    BadPayload = 11,
}

impl Refusal {
    // One line in each enum with numbers: `as` asks for the enum by name, and so would it in each impl of a trait.
    /// The number of the refusal.
    pub fn number(self) -> u8
        ensures { result ≡ refusal_number self }
    {
        self as u8
    }
}

/// Writes a frame of either direction from the start of the buffer on, and answers the length of its wire form.
/// No wire form is longer than 521.
pub fn write<'a, F: Parsed<'a>>(head: Head, frame: F, wire: &mut [u8]) -> Result<usize, Refusal>
    ensures answer { Writes F.direction (framed head (F.shows frame)) wire.old wire.new result }
    ensures short { WireIsShort }
{
    let Some(form) = Form::of(F::direction(), frame.code()) else {
        unreachable!()
    };
    lay(head, frame.code(), form, frame.payload(), wire)
}

// The part of it that is the same for each type of frames, and so is told the code, and the form that goes with it: inside
// `write` it is no shorter, and each way out has the bound on all wire forms to prove once more.
#[inline(always)]
fn lay(head: Head, code: u8, form: Form, payload: &[u8], wire: &mut [u8]) -> Result<usize, Refusal>
    requires { code < 8 }
    ensures { Lays form (framed head (shows code payload.now)) wire.old wire.new result }
{
    if wire.len() < WIRE {
        return Err(Refusal::ShortWire);
    }
    if !form.carries(payload) {
        return Err(Refusal::BadPayload);
    }
    let channel = head.address.byte();
    let code = code_byte(head, code);
    Ok(match form {
        Form::Bare => seal(&[channel, code], &[], &[], wire),
        Form::Text => seal(&[channel, code], payload, &[0], wire),
        Form::Counted => seal(
            &[channel, code, (payload.len() - 1) as u8],
            payload,
            &[],
            wire,
        ),
    })
}

fn code_byte(head: Head, code: u8) -> u8
    requires { code < 8 }
    ensures { result ≡ code_byte_of code head.reset head.toggle }
{
    code + 0x40 * u8::from(head.reset) + 0x80 * u8::from(head.toggle)
}

// Writes the wire form of a body given in three parts.
#[tactic(auto, using(crate::proofs::Stuffing::parts_length))]
fn seal(front: &[u8], payload: &[u8], back: &[u8], wire: &mut [u8]) -> usize
    requires { length (wire_of (front.now ++ payload.now ++ back.now)) ≤ length wire.old }
    ensures length { result ≡ length (wire_of (front.now ++ payload.now ++ back.now)) }
    ensures after { wire.new ≡ over wire.old 0 (wire_of (front.now ++ payload.now ++ back.now)) }
{
    let check = check(front, payload, back);
    let mut pen = Pen { wire, len: 0 };
    pen.put(MARK);
    pen.put(MARK);
    pen.put_stuffed(front);
    pen.put_stuffed(payload);
    pen.put_stuffed(back);
    pen.put_stuffed(&check);
    pen.len
}

// The checksum of a body given in three parts.
fn check(front: &[u8], payload: &[u8], back: &[u8]) -> [u8; 2]
    ensures { result ≡ check_of (front.now ++ payload.now ++ back.now) }
{
    let register = fcs::extend(fcs::extend(fcs::extend(fcs::START, front), payload), back);
    fcs::checksum(register)
}

// Writes a buffer from its start on: the buffer, which is the caller's, and how far it is written.
#[derive(Drop)]
struct Pen<'a> {
    wire: &'a mut [u8],
    len: usize,
}

impl Pen<'_> {
    // Writes a byte as it is.
    fn put(&mut self, byte: u8)
        requires { self.old.len < length self.old.wire.now }
        ensures same { self.new.wire.ghost_name ≡ self.old.wire.ghost_name }
        ensures len { self.new.len ≡ self.old.len + 1 }
        ensures wide { length self.new.wire.now ≡ length self.old.wire.now }
        ensures wire { self.new.wire.now ≡ over self.old.wire.now self.old.len (byte ∷ []) }
    {
        self.wire[self.len] = byte;
        self.len += 1;
    }

    // Writes bytes of a frame: 00 goes after each AA.
    fn put_stuffed(&mut self, bytes: &[u8])
        requires { self.old.len + length (stuffed bytes.now) ≤ length self.old.wire.now }
        ensures same { self.new.wire.ghost_name ≡ self.old.wire.ghost_name }
        ensures len { self.new.len ≡ self.old.len + length (stuffed bytes.now) }
        ensures wide { length self.new.wire.now ≡ length self.old.wire.now }
        ensures wire { self.new.wire.now ≡ over self.old.wire.now self.old.len (stuffed bytes.now) }
    {
        for byte in bytes {
            self.put(*byte);
            if *byte == MARK {
                self.put(0);
            }
        }
    }
}
