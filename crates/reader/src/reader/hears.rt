// What a reader does with each byte.
ghost use Rattle.std.specs.Prelude.{◌≡◌, ◌+◌, length, Ok, Err};
ghost use Rattle.std.specs.Option.{option_map};
ghost use Rattle.reader.specs.Laws.{RoundTrip, WrittenPasses, OneWireForm, CountsRaw};
ghost use Rattle.reader.specs.State.{Stands};
ghost use Rattle.reader.specs.Read.{meaning, fresh, passed, fault_of, hears, with_channel, without, on_to, keeps, adds};

use super::Reader;
use crate::body::Body;
use crate::fault::{Fault, Layer, Reason};
use crate::state::{Heard, Part, State};
use frame::form::{Direction, Form, TEXT};
use frame::head::GENERAL;
use poll::channel::LAST_CHANNEL;
use wire::writer::MARK;

impl Reader {
    /// A reader of one direction that has heard nothing. Every reader begins here, so the laws of all of them stand here.
    pub fn new(direction: Direction) -> Reader
        ensures value { meaning result ≡ fresh direction }
        ensures round_trip { RoundTrip }
        ensures written_passes { WrittenPasses }
        ensures one_wire_form { OneWireForm direction }
        ensures counts { CountsRaw direction }
    {
        Reader {
            direction,
            state: State::Waiting,
            body: Body::new(),
            raw: 0,
        }
    }

    /// The body that passed with the last byte, if one did.
    pub fn body(&self) -> Option<&[u8]>
        ensures { option_map (λ x. x.now) result ≡ passed (meaning self.now) }
    {
        matches!(self.state, State::Passed).then_some(self.body.as_slice())
    }

    /// Hears one byte.
    pub fn hear(&mut self, b: u8) -> Result<Heard, Fault>
        ensures after { meaning self.new ≡ (hears (meaning self.old) b).then }
        ensures answer { result ≡ (hears (meaning self.old) b).says }
    {
        match (self.state, b) {
            (State::Waiting | State::Passed, MARK) => self.rest(State::Marked),
            (State::Marked | State::Started, MARK) => self.rest(State::Started),
            (State::Waiting | State::Passed | State::Marked, _) => self.rest(State::Waiting),
            (State::Started, _) => self.begin(b),
            (State::Inside(part), MARK) => self.go_on(State::Escaped(part)),
            (State::Inside(part), _) => self.add(part, b),
            (State::Escaped(part), 0) => self.add(part, MARK),
            (State::Escaped(_), MARK) => self.fail(Reason::NewFrame, State::Started),
            (State::Escaped(_), _) => self.fail(Reason::StrayMark, State::Waiting),
        }
    }
}

// The steps. Each answers for `hear`, so each says its answer and what it leaves. Most ask for `Stands` of the state that
// they go to: no value is in that state before the step, so no type can say it.
impl Reader {
    // Goes on with no frame.
    fn rest(&mut self, state: State) -> Result<Heard, Fault>
        requires { Stands state 0 0 }
        ensures after { meaning self.new ≡ without self.old state }
        ensures answer { result ≡ Ok Heard.More }
    {
        self.clear();
        self.state = state;
        Ok(Heard::More)
    }

    // Drops the frame for a fault at this byte.
    fn fail(&mut self, reason: Reason, state: State) -> Result<Heard, Fault>
        requires { Stands state 0 0 }
        ensures after { meaning self.new ≡ without self.old state }
        ensures answer { result ≡ Err (fault_of reason (self.old.raw + 1)) }
    {
        let fault = Fault {
            layer: Layer::Reader,
            reason,
            count: self.raw + 1,
        };
        self.clear();
        self.state = state;
        Err(fault)
    }

    fn clear(&mut self)
        ensures { meaning self.new ≡ without self.old State.Waiting }
    {
        self.state = State::Waiting;
        self.body.clear();
        self.raw = 0;
    }

    // One raw byte on, with none more of the body.
    fn go_on(&mut self, state: State) -> Result<Heard, Fault>
        requires { Stands state (length self.old.body) (self.old.raw + 1) }
        ensures after { meaning self.new ≡ on_to self.old state }
        ensures answer { result ≡ Ok Heard.More }
    {
        self.state = state;
        self.raw += 1;
        Ok(Heard::More)
    }

    // The channel byte.
    fn begin(&mut self, b: u8) -> Result<Heard, Fault>
        requires { self.old.state ≡ State.Started }
        ensures after { meaning self.new ≡ (with_channel self.old.direction b).then }
        ensures answer { result ≡ (with_channel self.old.direction b).says }
    {
        match b {
            0..=LAST_CHANNEL | GENERAL => self.keep(b, Part::Code),
            _ => self.fail(Reason::BadChannel, State::Waiting),
        }
    }

    // One byte more of the frame.
    fn add(&mut self, part: Part, b: u8) -> Result<Heard, Fault>
        requires { Stands (State.Escaped part) (length self.old.body) self.old.raw }
        ensures after { meaning self.new ≡ (adds self.old part b).then }
        ensures answer { result ≡ (adds self.old part b).says }
    {
        match part {
            Part::Code => match Form::of(self.direction, b & 0x3f) {
                Some(form) => self.keep(b, Part::from(form)),
                None => self.fail(Reason::UnknownCode, State::Waiting),
            },
            Part::Count => self.keep(b, Part::Block(u16::from(b) + 1)),
            Part::Block(left) if left > 1 => self.keep(b, Part::Block(left - 1)),
            Part::Block(_) => self.keep(b, Part::Low),
            Part::Text if b == 0 => self.keep(b, Part::Low),
            Part::Text if self.body.len() < TEXT + 2 => self.keep(b, Part::Text),
            Part::Text => self.fail(Reason::EndlessText, State::Waiting),
            Part::Low => self.go_on(State::Inside(Part::High(b))),
            Part::High(low) => self.close(low, b),
        }
    }

    // Keeps a byte of the body.
    fn keep(&mut self, b: u8, next: Part) -> Result<Heard, Fault>
        requires { Stands (State.Inside next) (length self.old.body + 1) (self.old.raw + 1) }
        ensures after { meaning self.new ≡ keeps self.old next b }
        ensures answer { result ≡ Ok Heard.More }
    {
        self.state = State::Inside(next);
        self.body.push(b);
        self.raw += 1;
        Ok(Heard::More)
    }

    // The last byte of the frame: it passes if its checksum is good.
    fn close(&mut self, low: u8, high: u8) -> Result<Heard, Fault>
        ensures after { meaning self.new ≡ (adds self.old (Part.High low) high).then }
        ensures answer { result ≡ (adds self.old (Part.High low) high).says }
    {
        if fcs::extend(self.body.register(), &[low, high]) != fcs::RESIDUE {
            return self.fail(Reason::BadChecksum, State::Waiting);
        }
        self.state = State::Passed;
        self.raw = 0;
        Ok(Heard::Frame)
    }
}
