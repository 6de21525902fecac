// Both ends with their stores, and the calls of a script made on them. What a call tells is what the end answers, by the
// definitions in specs/Told.antt, and it changes what the end's own call changes. Only a call that may hand out a doubt note can
// fail: it takes the memory to keep the note first, and where there is none, nothing has changed.
ghost use Rattle.std.specs.Prelude.{◌≡◌, ◌<◌, min, nat_lt, length, if◌then◌else◌, is_ok, Some, IfOk, OnOk, OnErr, MatchOption, vec_len, vec_capacity};
ghost use Rattle.store.specs.Meaning.{Meaning, plain};
ghost use Rattle.store.specs.Rules.{copy_source, written_over};
ghost use Rattle.wire.specs.Wire.{longest_wire};
ghost use Rattle.reader.specs.Read.{fresh, hears};
ghost use Rattle.ends.specs.Ear.{heard_by};
ghost use Rattle.ends.specs.Blocks.{granted, submit_answer, submit_counts, submit_store, collect_answer, collect_store};
ghost use Rattle.ends.specs.Host.{open_call, step_call, timer_call, host_counts};
ghost use Rattle.ends.specs.Tnc.{new_tnc, tnc_counts};
ghost use Rattle.host.specs.Model.{host_of};
ghost use Rattle.host.specs.Answers.{open_answer, step_answer, timer_answer};
ghost use Rattle.host.specs.Hear.{hear_answer, hear_call};
ghost use Rattle.host.specs.Left.{Left, Stands};
ghost use Rattle.tnc.specs.Model.{tnc_of};
ghost use Rattle.tnc.specs.Hear as tnc_rules;
ghost use Rattle.tnc.specs.Left as tnc_left;
ghost use Rattle.replay.specs.AnyStore.{meaning_of};
ghost use Rattle.replay.specs.Notes.{unspent_of, next_number, note_of, with_note, without, timed_doubt, rule_doubt, heard_doubt};
ghost use Rattle.replay.specs.Settings.{IsNewStore};
ghost use Rattle.replay.specs.Told.{open_told, step_told, fall_told, timer_told, rule_told, hear_told, tnc_told, submit_told, collect_told};

use crate::any_store::AnyStore;
use crate::buffers::byte;
use crate::event::{Doubt, Event, Met, Sending};
use crate::notes::{Kept, Notes};
use crate::settings::Choices;
use ends::name::BlockName;
use ends::refusal::Refusal;
use frame::form::Direction;
use host::answer::{Fall, Heard, Returned, Stepped, Timed};
use host::host::Host;
use std::alloc::AllocError;
use tnc::answer::Heard as Answered;
use tnc::tnc::Tnc;

/// The two ends, each with its stores. A number above 255 is no byte, and is no channel either: a call is then given 255.
#[derive(Drop)]
pub struct Session<'a> {
    host: Host,
    tnc: Tnc,
    host_out: AnyStore<'a>,
    host_in: AnyStore<'a>,
    tnc_out: AnyStore<'a>,
    tnc_in: AnyStore<'a>,
}

impl<'a> Session<'a> {
    /// The ends before the first call, on the stores that were chosen.
    pub fn new(host: Host, choices: &'a mut Choices) -> Session<'a>
        ensures host { result.host ≡ host }
        ensures tnc { tnc_of result.tnc.link ≡ new_tnc }
        ensures ear { heard_by result.tnc.ear ≡ fresh Direction.FromHost }
        ensures host_out { IsNewStore choices.old.host_out result.host_out }
        ensures host_in { IsNewStore choices.old.host_in result.host_in }
        ensures tnc_out { IsNewStore choices.old.tnc_out result.tnc_out }
        ensures tnc_in { IsNewStore choices.old.tnc_in result.tnc_in }
    {
        let Choices {
            host_out,
            host_in,
            tnc_out,
            tnc_in,
        } = choices;
        Session {
            host,
            tnc: Tnc::new(),
            host_out: host_out.store(),
            host_in: host_in.store(),
            tnc_out: tnc_out.store(),
            tnc_in: tnc_in.store(),
        }
    }

    pub fn host(&self) -> &Host
        ensures { result.now ≡ self.now.host }
    {
        &self.host
    }

    pub fn tnc(&self) -> &Tnc
        ensures { result.now ≡ self.now.tnc }
    {
        &self.tnc
    }

    pub fn host_open(&mut self, wire: &mut [u8]) -> Event
        ensures told { result ≡
            open_told (open_answer (host_of self.old.host.link) (length wire.old)) }
        ensures after { (out inn : Meaning) →
            Left (open_call (length wire.old) (host_of self.old.host.link) out inn)
            self.old.host self.new.host out inn wire.old wire.new }
        ensures only { self.new ≡ record self.old { host = self.new.host } }
    {
        match self.host.open(wire) {
            Ok(sent) => Event::Sent(Sending::Open, sent),
            Err(refusal) => Event::Refused(refusal),
        }
    }

    pub fn host_step(&mut self, wire: &mut [u8]) -> Event
        ensures told { result ≡ step_told (step_answer
            (host_of self.old.host.link) (meaning_of self.old.host_out) (length wire.old)) }
        ensures after { (inn : Meaning) →
            Left (step_call (length wire.old) (host_of self.old.host.link)
            (meaning_of self.old.host_out) inn)
            self.old.host self.new.host (meaning_of self.old.host_out) inn wire.old wire.new }
        ensures only { self.new ≡ record self.old { host = self.new.host } }
    {
        match self.host.step(&self.host_out, wire) {
            Ok(Stepped { rule, sent }) => Event::Sent(Sending::Step(rule), sent),
            Err(refusal) => Event::Refused(refusal),
        }
    }

    pub fn host_timer(&mut self, notes: &mut Notes, wire: &mut [u8]) -> Result<Event, AllocError>
        ensures told { IfOk result (λ e. e ≡ timer_told (next_number (unspent_of notes.old))
            (timer_answer (host_of self.old.host.link) (length wire.old))) }
        ensures after { OnOk result ((inn : Meaning) →
            Left (timer_call (length wire.old) (host_of self.old.host.link)
            (meaning_of self.old.host_out) inn)
            self.old.host self.new.host (meaning_of self.new.host_out) inn wire.old wire.new) }
        ensures notes { OnOk result (unspent_of notes.new ≡ with_note
            (timed_doubt (timer_answer (host_of self.old.host.link) (length wire.old)))
            (unspent_of notes.old)) }
        ensures err { OnErr result ((self.new ≡ self.old)
            × (unspent_of notes.new ≡ unspent_of notes.old) × (wire.new ≡ wire.old)) }
        ensures only { self.new ≡ record self.old {
          host = self.new.host;
          host_out = self.new.host_out;
        } }
    {
        notes.reserve()?;
        Ok(match self.host.timer(&mut self.host_out, wire) {
            Ok(Timed::Repeated(sent)) => Event::Sent(Sending::Repeat, sent),
            Ok(Timed::Down(fall)) => down(notes, fall),
            Err(refusal) => Event::Refused(refusal),
        })
    }

    pub fn host_hear(&mut self, notes: &mut Notes, byte: u8) -> Result<Option<Event>, AllocError>
        ensures told { IfOk result (λ o. o ≡ hear_told (next_number (unspent_of notes.old))
            (hear_answer (hears (heard_by self.old.host.ear) byte) (host_of self.old.host.link)
            (meaning_of self.old.host_out) (meaning_of self.old.host_in))) }
        ensures after { OnOk result (Stands
            (hear_call (hears (heard_by self.old.host.ear) byte) (host_of self.old.host.link)
            (meaning_of self.old.host_out) (meaning_of self.old.host_in))
            (host_of self.new.host.link)
            (meaning_of self.new.host_out) (meaning_of self.new.host_in)) }
        ensures ear { OnOk result
            (heard_by self.new.host.ear ≡ (hears (heard_by self.old.host.ear) byte).then) }
        ensures notes { OnOk result (unspent_of notes.new ≡ with_note
            (heard_doubt (hear_answer (hears (heard_by self.old.host.ear) byte)
            (host_of self.old.host.link)
            (meaning_of self.old.host_out) (meaning_of self.old.host_in)))
            (unspent_of notes.old)) }
        ensures err { OnErr result
            ((self.new ≡ self.old) × (unspent_of notes.new ≡ unspent_of notes.old)) }
        ensures only { self.new ≡ record self.old {
          host = self.new.host;
          host_out = self.new.host_out;
          host_in = self.new.host_in;
        } }
    {
        notes.reserve()?;
        Ok(
            match self.host.hear(&mut self.host_out, &mut self.host_in, byte) {
                Ok(None) => None,
                Ok(Some(heard)) => Some(host_event(notes, heard)),
                Err(refusal) => Some(Event::Refused(refusal)),
            },
        )
    }

    pub fn host_submit(&mut self, channel: u64, block: &[u8]) -> Event
        ensures told { result ≡ submit_told (submit_answer (host_of self.old.host.link).submitted
            (meaning_of self.old.host_out) (min channel 255) (plain block.now)) }
        ensures after { host_of self.new.host.link ≡ host_counts (host_of self.old.host.link)
            (submit_counts (host_of self.old.host.link).submitted
            (meaning_of self.old.host_out) (min channel 255) (plain block.now)) }
        ensures ear { self.new.host.ear ≡ self.old.host.ear }
        ensures out { meaning_of self.new.host_out ≡
            submit_store (host_of self.old.host.link).submitted
            (meaning_of self.old.host_out) (min channel 255) (plain block.now) }
        ensures only { self.new ≡ record self.old {
          host = self.new.host;
          host_out = self.new.host_out;
        } }
    {
        let channel = byte(channel);
        numbered(self.host.submit(&mut self.host_out, channel, block))
    }

    /// Submits again with the note of a number, if it is not spent. A refused call leaves the note where it was.
    pub fn host_again(&mut self, notes: &mut Notes, number: u64, block: &[u8]) -> Event
        ensures told { MatchOption (note_of number (unspent_of notes.old))
            (result ≡ Event.NoNote number)
            (λ k. result ≡ submit_told (submit_answer (host_of self.old.host.link).submitted
            (meaning_of self.old.host_out) k.note.channel (plain block.now))) }
        ensures after { MatchOption (note_of number (unspent_of notes.old))
            (self.new ≡ self.old)
            (λ k. host_of self.new.host.link ≡ host_counts (host_of self.old.host.link)
            (submit_counts (host_of self.old.host.link).submitted
            (meaning_of self.old.host_out) k.note.channel (plain block.now))) }
        ensures notes { MatchOption (note_of number (unspent_of notes.old))
            (unspent_of notes.new ≡ unspent_of notes.old)
            (λ k. unspent_of notes.new ≡ (if granted (submit_answer
            (host_of self.old.host.link).submitted
            (meaning_of self.old.host_out) k.note.channel (plain block.now))
            then without number (unspent_of notes.old) else unspent_of notes.old)) }
        ensures ear { self.new.host.ear ≡ self.old.host.ear }
        ensures out { MatchOption (note_of number (unspent_of notes.old))
            (self.new ≡ self.old)
            (λ k. meaning_of self.new.host_out ≡ submit_store (host_of self.old.host.link).submitted
            (meaning_of self.old.host_out) k.note.channel (plain block.now)) }
        ensures only { self.new ≡ record self.old {
          host = self.new.host;
          host_out = self.new.host_out;
        } }
    {
        let Some(place) = notes.place(number) else {
            return Event::NoNote(number);
        };
        let Kept { number, note } = notes.take(place);
        match self.host.submit_again(&mut self.host_out, note, block) {
            Ok(block) => Event::Number(block),
            Err(Returned { refusal, note }) => {
                notes.put_back(place, Kept { number, note });
                Event::Refused(refusal)
            }
        }
    }

    pub fn host_collect(&mut self, channel: u64, buffer: &mut [u8]) -> Event
        ensures told { result ≡ collect_told (collect_answer
            (meaning_of self.old.host_in) (min channel 255) (length buffer.old)) }
        ensures buffer { buffer.new ≡ written_over (copy_source
            (meaning_of self.old.host_in) (min channel 255) (length buffer.old)) buffer.old }
        ensures inn { meaning_of self.new.host_in ≡ collect_store
            (meaning_of self.old.host_in) (min channel 255) (length buffer.old) }
        ensures only { self.new ≡ record self.old { host_in = self.new.host_in } }
    {
        let channel = byte(channel);
        collected(self.host.collect(&mut self.host_in, channel, buffer))
    }

    pub fn tnc_hear(&mut self, byte: u8, wire: &mut [u8]) -> Option<Event>
        ensures told { result ≡ tnc_told (tnc_rules.hear_answer (length wire.old)
            (hears (heard_by self.old.tnc.ear) byte) (tnc_of self.old.tnc.link)
            (meaning_of self.old.tnc_out) (meaning_of self.old.tnc_in)) }
        ensures after { tnc_left.Left (tnc_rules.hear_call (length wire.old)
            (hears (heard_by self.old.tnc.ear) byte) (tnc_of self.old.tnc.link)
            (meaning_of self.old.tnc_out) (meaning_of self.old.tnc_in))
            (tnc_of self.new.tnc.link) (meaning_of self.new.tnc_out) (meaning_of self.new.tnc_in)
            wire.old wire.new }
        ensures ear { heard_by self.new.tnc.ear ≡ (if nat_lt (length wire.old) longest_wire
            then heard_by self.old.tnc.ear else (hears (heard_by self.old.tnc.ear) byte).then) }
        ensures only { self.new ≡ record self.old {
          tnc = self.new.tnc;
          tnc_out = self.new.tnc_out;
          tnc_in = self.new.tnc_in;
        } }
    {
        match self
            .tnc
            .hear(&mut self.tnc_out, &mut self.tnc_in, byte, wire)
        {
            Ok(None) => None,
            Ok(Some(Answered { rule, went, sent })) => Some(Event::Answered(rule, went, sent)),
            Err(refusal) => Some(Event::Refused(refusal)),
        }
    }

    pub fn tnc_submit(&mut self, channel: u64, block: &[u8]) -> Event
        ensures told { result ≡ submit_told (submit_answer (tnc_of self.old.tnc.link).submitted
            (meaning_of self.old.tnc_out) (min channel 255) (plain block.now)) }
        ensures after { tnc_of self.new.tnc.link ≡ tnc_counts (tnc_of self.old.tnc.link)
            (submit_counts (tnc_of self.old.tnc.link).submitted
            (meaning_of self.old.tnc_out) (min channel 255) (plain block.now)) }
        ensures ear { self.new.tnc.ear ≡ self.old.tnc.ear }
        ensures out { meaning_of self.new.tnc_out ≡
            submit_store (tnc_of self.old.tnc.link).submitted
            (meaning_of self.old.tnc_out) (min channel 255) (plain block.now) }
        ensures only { self.new ≡ record self.old {
          tnc = self.new.tnc;
          tnc_out = self.new.tnc_out;
        } }
    {
        let channel = byte(channel);
        numbered(self.tnc.submit(&mut self.tnc_out, channel, block))
    }

    pub fn tnc_collect(&mut self, channel: u64, buffer: &mut [u8]) -> Event
        ensures told { result ≡ collect_told (collect_answer
            (meaning_of self.old.tnc_in) (min channel 255) (length buffer.old)) }
        ensures buffer { buffer.new ≡ written_over (copy_source
            (meaning_of self.old.tnc_in) (min channel 255) (length buffer.old)) buffer.old }
        ensures inn { meaning_of self.new.tnc_in ≡ collect_store
            (meaning_of self.old.tnc_in) (min channel 255) (length buffer.old) }
        ensures only { self.new ≡ record self.old { tnc_in = self.new.tnc_in } }
    {
        let channel = byte(channel);
        collected(self.tnc.collect(&mut self.tnc_in, channel, buffer))
    }
}

/// Spends a note, if there is one of the number.
pub fn host_write_off(notes: &mut Notes, number: u64) -> Event
    ensures told { MatchOption (note_of number (unspent_of notes.old))
        (result ≡ Event.NoNote number) (λ _. result ≡ Event.WrittenOff) }
    ensures notes { unspent_of notes.new ≡ without number (unspent_of notes.old) }
{
    match notes.place(number) {
        Some(place) => {
            notes.take(place).write_off();
            Event::WrittenOff
        }
        None => Event::NoNote(number),
    }
}

// What a submission came to.
fn numbered(submitted: Result<u32, Refusal>) -> Event
    ensures { result ≡ submit_told submitted }
{
    match submitted {
        Ok(number) => Event::Number(number),
        Err(refusal) => Event::Refused(refusal),
    }
}

// What a collect came to.
fn collected(length: Result<usize, Refusal>) -> Event
    ensures { result ≡ collect_told length }
{
    match length {
        Ok(length) => Event::Block(length),
        Err(refusal) => Event::Refused(refusal),
    }
}

// The rule that a frame met at the host.
fn host_event(notes: &mut Notes, heard: Heard) -> Event
    requires { vec_len notes.old.kept < vec_capacity notes.old.kept }
    ensures told { result ≡ rule_told (next_number (unspent_of notes.old)) heard }
    ensures notes { unspent_of notes.new ≡ with_note (rule_doubt heard) (unspent_of notes.old) }
{
    match heard {
        Heard::Stale => Event::Met(Met::Stale),
        Heard::Opened => Event::Met(Met::Opened),
        Heard::Confirmed(block) => Event::Confirmed(block),
        Heard::BlockRefused => Event::Met(Met::BlockRefused),
        Heard::NothingThere => Event::Met(Met::NothingThere),
        Heard::Received => Event::Met(Met::Received),
        Heard::Listed => Event::Met(Met::Listed),
        Heard::Down(fall) => down(notes, fall),
    }
}

// The link went down: the note for the block that was on its way is kept.
fn down(notes: &mut Notes, fall: Fall) -> Event
    requires { vec_len notes.old.kept < vec_capacity notes.old.kept }
    ensures told { result ≡ fall_told (next_number (unspent_of notes.old)) fall }
    ensures notes { unspent_of notes.new ≡ with_note fall.doubt (unspent_of notes.old) }
{
    let Fall { cause, doubt } = fall;
    let Some(note) = doubt else {
        return Event::Down(cause, None);
    };
    let block = BlockName {
        channel: note.channel(),
        number: note.number(),
    };
    let note = notes.keep(note);
    Event::Down(cause, Some(Doubt { block, note }))
}
