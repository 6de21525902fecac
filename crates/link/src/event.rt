// A call that was made, with what it answered.
ghost use Rattle.std.specs.Prelude.{◌≡◌};
ghost use Rattle.link.specs.Notes.{note_of};

use ends::refusal::Refusal;
use host::answer::{Fall, Heard as HostHeard, Returned, Stepped, Timed};
use host::note::DoubtNote;
use tnc::answer::Heard as TncHeard;

/// A call with its arguments, and what the end answered. A doubt note that it hands out, or hands
/// back, is in it.
pub enum Event<'a> {
    HostOpen(Result<usize, Refusal>),
    HostStep(Result<Stepped, Refusal>),
    HostTimer(Result<Timed, Refusal>),
    HostHear(u8, Result<Option<HostHeard>, Refusal>),
    HostSubmit(u8, &'a [u8], Result<u32, Refusal>),
    /// By the note of this channel and number.
    HostSubmitAgain(u8, u32, &'a [u8], Result<u32, Returned>),
    /// No note was given to submit again by, so no call was made.
    NoNote(&'a [u8]),
    HostCollect(u8, Result<usize, Refusal>),
    TncHear(u8, Result<Option<TncHeard>, Refusal>),
    TncSubmit(u8, &'a [u8], Result<u32, Refusal>),
    TncCollect(u8, Result<usize, Refusal>),
}

impl Event<'_> {
    /// The note that it hands out, or hands back.
    pub fn note(self) -> Option<DoubtNote>
        ensures { result ≡ note_of self.entry }
    {
        match self {
            Event::HostTimer(Ok(timed)) => match timed {
                Timed::Repeated(_) => None,
                Timed::Down(Fall { cause: _, doubt }) => doubt,
            },
            Event::HostHear(_, Ok(Some(heard))) => match heard {
                HostHeard::Down(Fall { cause: _, doubt }) => doubt,
                HostHeard::Stale
                | HostHeard::Opened
                | HostHeard::Confirmed(_)
                | HostHeard::BlockRefused
                | HostHeard::NothingThere
                | HostHeard::Received
                | HostHeard::Listed => None,
            },
            Event::HostSubmitAgain(_, _, _, Err(Returned { refusal: _, note })) => Some(note),
            Event::HostTimer(Err(_))
            | Event::HostHear(_, Ok(None) | Err(_))
            | Event::HostSubmitAgain(_, _, _, Ok(_))
            | Event::HostOpen(_)
            | Event::HostStep(_)
            | Event::HostSubmit(_, _, _)
            | Event::NoNote(_)
            | Event::HostCollect(_, _)
            | Event::TncHear(_, _)
            | Event::TncSubmit(_, _, _)
            | Event::TncCollect(_, _) => None,
        }
    }
}
