// What an answer settles.
ghost use Rattle.std.specs.Prelude.{◌≡◌};
ghost use Rattle.host.specs.Answers.{doubt_word, rule_word};
ghost use Rattle.show.specs.Settled.{settled, settled_by};

use ends::name::{BlockName, Went};
use host::answer::{Fall, Heard};
use order::outcome::Outcome;

/// The number of a submission on its channel, and what became of it.
#[derive(Clone, Copy, PartialEq, Eq, Debug)]
pub struct Settled {
    pub number: u32,
    pub outcome: Outcome,
}

impl Settled {
    /// By the block that left its end's store.
    pub fn of(went: Went) -> Settled
        ensures { result ≡ settled went }
    {
        match went {
            Went::Confirmed(block) => Settled {
                number: block.number,
                outcome: Outcome::Confirmed,
            },
            Went::Doubtful(block) => Settled {
                number: block.number,
                outcome: Outcome::Doubtful,
            },
        }
    }

    /// By the rule that a frame met at the terminal, if it settles a block.
    pub fn by_rule(heard: &Heard) -> Option<Settled>
        ensures { result ≡ settled_by (rule_word heard.now) }
    {
        match heard {
            Heard::Confirmed(block) => Some(Settled::of(Went::Confirmed(*block))),
            Heard::Down(fall) => Settled::by_fall(fall),
            Heard::Stale
            | Heard::Opened
            | Heard::BlockRefused
            | Heard::NothingThere
            | Heard::Received
            | Heard::Listed => None,
        }
    }

    /// By a fall of the link, if a block was on its way.
    pub fn by_fall(fall: &Fall) -> Option<Settled>
        ensures { result ≡ settled_by (doubt_word fall.now.doubt) }
    {
        let note = fall.doubt.as_ref()?;
        Some(Settled::of(Went::Doubtful(BlockName {
            channel: note.channel(),
            number: note.number(),
        })))
    }
}
