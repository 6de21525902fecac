// Frames that passed at an end, against those that its line brought.
ghost use Rattle.std.specs.Prelude.{◌≡◌, ◌↔◌, Some, length, IsTrue, nat_eq};
ghost use Rattle.std.specs.List.{ends_with};
ghost use Rattle.order.specs.LineRule.{KeepsLineRule, line_rule_words};

use std::fmt;

/// A frame that passed at an end.
#[derive(Clone, Copy, PartialEq, Eq, Debug)]
pub struct Passed {
    /// The place, among all that the other end has written, of the frame that the line was
    /// bringing.
    pub place: usize,
    /// Whether the bytes that were heard last are that frame as it was written.
    pub is_whole: bool,
}

impl Passed {
    /// With these bytes heard, while the line was bringing that frame of that place.
    pub fn new(place: usize, heard: &[u8], frame: &[u8]) -> Passed
        ensures { result ≡ record {
          place = place;
          is_whole = ends_with nat_eq heard.now frame.now;
        } }
    {
        Passed {
            place,
            is_whole: heard.ends_with(frame),
        }
    }
}

/// Whether the lines kept their rule, and how many frames passed at either end.
#[derive(Clone, Copy, PartialEq, Eq, Debug)]
pub struct LineRule {
    /// With each frame that passed, the line had just brought one whole, and all in the order of
    /// writing.
    pub is_kept: bool,
    pub at_modem: usize,
    pub at_terminal: usize,
}

impl LineRule {
    /// Of the frames that passed at either end, in order.
    pub fn of(at_modem: &[Passed], at_terminal: &[Passed]) -> LineRule
        ensures kept { IsTrue result.is_kept ↔
            (KeepsLineRule at_modem.now × KeepsLineRule at_terminal.now) }
        ensures at_modem { result.at_modem ≡ length at_modem.now }
        ensures at_terminal { result.at_terminal ≡ length at_terminal.now }
    {
        LineRule {
            is_kept: is_kept(at_modem) && is_kept(at_terminal),
            at_modem: at_modem.len(),
            at_terminal: at_terminal.len(),
        }
    }
}

fn is_kept(passed: &[Passed]) -> bool
    ensures { IsTrue result ↔ KeepsLineRule passed.now }
{
    passed.iter().all(|frame| frame.is_whole) && passed.is_sorted_by_key(|frame| frame.place)
}

impl fmt::Display for LineRule {
    ghost output = { λ r. Some (line_rule_words r) };

    fn fmt<W: fmt::Write>(&self, f: &mut fmt::Formatter<W>) -> fmt::Result {
        let LineRule {
            is_kept,
            at_modem,
            at_terminal,
        } = *self;
        if is_kept {
            write!(
                f,
                "The line kept its rule: every frame that passed, {at_modem} at the modem and {at_terminal} at the terminal, was one that it had just brought whole, in the order of writing."
            )
        } else {
            write!(
                f,
                "The line broke its rule: a frame passed that it had not just brought whole, in the order of writing."
            )
        }
    }
}
