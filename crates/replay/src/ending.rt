// What is told when a script is through: how the ends stand, and the notes that are not spent.
ghost use Rattle.std.specs.Prelude.{◌≡◌, ◌++◌, Some, IfOk, OnOk, map};
ghost use Rattle.host.specs.Model.{host_of};
ghost use Rattle.tnc.specs.Model.{tnc_of};
ghost use Rattle.replay.specs.Ending.{stand_of, some_counted, tally_at, channel_lines, doubt_kept, note_line, final_lines, stand_word, end_word, tally_words, final_words};
ghost use Rattle.replay.specs.Notes.{unspent_of};

use crate::event::{BlockWords, Doubt};
use crate::notes::{Kept, Notes};
use crate::session::Session;
use ends::name::BlockName;
use host::host::State;
use poll::channel::LAST_CHANNEL;
use std::alloc::{AllocError, Global};
use std::fmt;

/// An end of the link.
#[derive(Clone, Copy)]
pub enum End {
    Host,
    Tnc,
}

/// Where the host stands.
#[derive(Clone, Copy)]
pub enum Stand {
    Fresh,
    Opening,
    Idle,
    OnItsWay,
    Down,
}

/// How many blocks of a channel were submitted, are gone, and wait.
#[derive(Clone, Copy)]
pub struct Tally {
    channel: u8,
    submitted: u32,
    gone: u32,
    waiting: u32,
}

/// A line that is told when a script is through.
#[derive(Clone, Copy)]
pub enum FinalLine {
    HostStands(Stand),
    /// The counts of a channel at an end.
    Channel(End, Tally),
    /// A note that is not spent, which whoever has the notes writes off.
    WrittenOff(Doubt),
}

impl Session<'_> {
    /// The counts of a channel at an end, unless nothing was submitted there and nothing is gone.
    pub fn tally(&self, end: End, channel: u8) -> Option<Tally>
        ensures { result ≡ tally_at end
            (host_of self.now.host.link) (tnc_of self.now.tnc.link) channel }
    {
        some_counted(match end {
            End::Host => Tally {
                channel,
                submitted: self.host().submitted(channel),
                gone: self.host().gone(channel),
                waiting: self.host().waiting(channel),
            },
            End::Tnc => Tally {
                channel,
                submitted: self.tnc().submitted(channel),
                gone: self.tnc().gone(channel),
                waiting: self.tnc().waiting(channel),
            },
        })
    }

    /// What is told when a script is through: where the host stands, the counts of each channel that has any, first the host's,
    /// and each note that is not spent, the oldest first.
    pub fn final_lines(&self, alloc: Global, notes: &Notes) -> Result<Vec<FinalLine>, AllocError>
        ensures { IfOk result (λ lines. lines.items ≡ final_lines self.now.host.link.state
            (host_of self.now.host.link) (tnc_of self.now.tnc.link) (unspent_of notes.now)) }
    {
        let mut lines = Vec::new(alloc);
        lines.push(FinalLine::HostStands(Stand::of(self.host().state())))?;
        self.push_channels(End::Host, &mut lines)?;
        self.push_channels(End::Tnc, &mut lines)?;
        push_notes(notes, &mut lines)?;
        Ok(lines)
    }

    // The counts of each channel of an end that has any.
    fn push_channels(&self, end: End, lines: &mut Vec<FinalLine>) -> Result<(), AllocError>
        ensures { OnOk result (lines.new.items ≡ lines.old.items ++ channel_lines end
            (host_of self.now.host.link) (tnc_of self.now.tnc.link)) }
    {
        for channel in 0..LAST_CHANNEL + 1 {
            if let Some(tally) = self.tally(end, channel) {
                lines.push(FinalLine::Channel(end, tally))?;
            }
        }
        Ok(())
    }
}

// The notes that are not spent.
fn push_notes(notes: &Notes, lines: &mut Vec<FinalLine>) -> Result<(), AllocError>
    ensures { OnOk result (lines.new.items ≡ lines.old.items
        ++ map note_line (unspent_of notes.now).kept) }
{
    for kept in notes.kept() {
        lines.push(FinalLine::WrittenOff(kept.doubt()))?;
    }
    Ok(())
}

impl Kept {
    // The block that it is for, and its number.
    fn doubt(&self) -> Doubt
        ensures { result ≡ doubt_kept self.now }
    {
        Doubt {
            block: BlockName {
                channel: self.note.channel(),
                number: self.note.number(),
            },
            note: self.number,
        }
    }
}

impl Stand {
    /// Where a host of this state stands.
    pub fn of(state: &State) -> Stand
        ensures { result ≡ stand_of state.now }
    {
        match state {
            State::Fresh => Stand::Fresh,
            State::Opening { .. } => Stand::Opening,
            State::Idle => Stand::Idle,
            State::OnItsWay(_, _) => Stand::OnItsWay,
            State::Down => Stand::Down,
        }
    }
}

// The counts, unless they are of no block.
fn some_counted(counts: Tally) -> Option<Tally>
    ensures { result ≡ some_counted counts }
{
    if counts.submitted == 0 && counts.gone == 0 {
        None
    } else {
        Some(counts)
    }
}

impl fmt::Display for End {
    ghost output = { λ e. Some (end_word e) };

    fn fmt<W: fmt::Write>(&self, f: &mut fmt::Formatter<W>) -> fmt::Result {
        f.write_str(match self {
            End::Host => "host",
            End::Tnc => "tnc",
        })
    }
}

impl fmt::Display for Stand {
    ghost output = { λ s. Some (stand_word s) };

    fn fmt<W: fmt::Write>(&self, f: &mut fmt::Formatter<W>) -> fmt::Result {
        f.write_str(match self {
            Stand::Fresh => "fresh",
            Stand::Opening => "opening",
            Stand::Idle => "idle",
            Stand::OnItsWay => "on-its-way",
            Stand::Down => "down",
        })
    }
}

impl fmt::Display for Tally {
    ghost output = { λ t. Some (tally_words t) };

    fn fmt<W: fmt::Write>(&self, f: &mut fmt::Formatter<W>) -> fmt::Result {
        let Tally {
            channel,
            submitted,
            gone,
            waiting,
        } = self;
        write!(
            f,
            "channel {channel} submitted {submitted} gone {gone} waiting {waiting}"
        )
    }
}

impl fmt::Display for FinalLine {
    ghost output = { λ l. Some (final_words l) };

    fn fmt<W: fmt::Write>(&self, f: &mut fmt::Formatter<W>) -> fmt::Result {
        match self {
            FinalLine::HostStands(stand) => write!(f, "end host {stand}"),
            FinalLine::Channel(end, tally) => write!(f, "end {end} {tally}"),
            FinalLine::WrittenOff(Doubt { block, note }) => {
                write!(f, "end note {note} {} written off", BlockWords(*block))
            }
        }
    }
}
