// The sheet at the end of a run: what became of all blocks, and how it is told.
ghost use Rattle.std.specs.Prelude.{◌≡◌, Some, IfOk};
ghost use Rattle.order.specs.Sheet.{IsSheetOf, bytes_count, came_words, gone_words, order_part};
ghost use Rattle.order.specs.Sheet.{order_part_words, sheet_words, texts_part, way_counts};
ghost use Rattle.order.specs.Sheet.{way_words};

use crate::blocks::blocks;
use crate::comparison::{Comparison, compare_in, copies};
use crate::line_rule::{LineRule, Passed};
use crate::outcome::{Outcome, outcome_count};
use crate::summary::{OrderCame, TextsCame};
use crate::words::Kind;
use std::alloc::{AllocError, Global};
use std::fmt;

/// What is known at the end of all that went one way.
#[derive(Clone, Copy)]
pub struct Way<'a> {
    /// What became of each submission.
    pub outcomes: &'a [Outcome],
    /// The blocks that the other end's program collected, in order.
    pub collected: &'a [Vec<u8>],
    /// How many blocks wait at the other end to be collected.
    pub there: usize,
    /// The frames that passed at the other end, in order.
    pub passed: &'a [Passed],
}

/// What was to go: the order and the farewell to the modem, its texts to the terminal.
#[derive(Clone, Copy)]
pub struct Sent<'a> {
    pub order: &'a [u8],
    pub farewell: &'a [u8],
    pub texts: &'a [Vec<u8>],
}

/// How many blocks went one way, and what became of them.
#[derive(Clone, Copy, PartialEq, Eq, Debug)]
pub struct WayCounts {
    pub submitted: usize,
    pub confirmed: usize,
    pub doubtful: usize,
    pub waiting: usize,
    pub collected: usize,
    pub there: usize,
}

/// What came of the order, and what else the modem's program collected.
#[derive(Clone, Copy, PartialEq, Eq, Debug)]
pub struct OrderPart {
    /// What was collected before the farewell was submitted, against the order.
    pub came: OrderCame,
    /// How many farewells were collected after that.
    pub farewells: usize,
    /// Blocks that came and are none of the order, or after it no farewell.
    pub strange: usize,
}

/// What became of all blocks of a run, and whether the lines kept their rule.
#[derive(Clone, Copy, PartialEq, Eq, Debug)]
pub struct Sheet {
    pub to_modem: WayCounts,
    pub to_terminal: WayCounts,
    pub order: OrderPart,
    pub texts: TextsCame,
    pub rule: LineRule,
}

impl WayCounts {
    fn of(way: &Way<'_>) -> WayCounts
        ensures { result ≡ way_counts way.now }
    {
        let outcomes = way.outcomes;
        WayCounts {
            submitted: outcomes.len(),
            confirmed: outcome_count(outcomes, Outcome::Confirmed),
            doubtful: outcome_count(outcomes, Outcome::Doubtful),
            waiting: outcome_count(outcomes, Outcome::Waiting),
            collected: way.collected.len(),
            there: way.there,
        }
    }
}

impl OrderPart {
    // The modem's program had collected so many blocks when the farewell was submitted.
    fn of(
        heap: Global,
        sent: &Sent<'_>,
        collected: &[Vec<u8>],
        before_farewell: usize,
    ) -> Result<OrderPart, AllocError>
        ensures { IfOk result
            (λ p. p ≡ order_part sent.now collected.now before_farewell) }
    {
        let expected = blocks(heap, sent.order)?;
        let (before, after) = collected.split_at(before_farewell.min(collected.len()));
        let came = compare_in(heap, expected.as_slice(), before)?;
        let farewells = copies(after, sent.farewell);
        let len = sent.order.len();
        Ok(OrderPart {
            came: OrderCame { came, len },
            farewells,
            strange: came.strange + (after.len() - farewells),
        })
    }
}

impl Sheet {
    /// Of what went either way, with the number of blocks that the modem's program had collected
    /// when the farewell was submitted. Only memory can be wanting.
    pub fn of(
        heap: Global,
        sent: &Sent<'_>,
        to_modem: &Way<'_>,
        to_terminal: &Way<'_>,
        before_farewell: usize,
    ) -> Result<Sheet, AllocError>
        ensures { IfOk result
            (IsSheetOf sent.now to_modem.now to_terminal.now before_farewell) }
    {
        Ok(Sheet {
            to_modem: WayCounts::of(to_modem),
            to_terminal: WayCounts::of(to_terminal),
            order: OrderPart::of(heap, sent, to_modem.collected, before_farewell)?,
            texts: texts_part(heap, sent.texts, to_terminal.collected)?,
            rule: LineRule::of(to_modem.passed, to_terminal.passed),
        })
    }
}

// What came of the modem's texts.
fn texts_part(
    heap: Global,
    texts: &[Vec<u8>],
    collected: &[Vec<u8>],
) -> Result<TextsCame, AllocError>
    ensures { IfOk result (λ t. t ≡ texts_part texts.now collected.now) }
{
    Ok(TextsCame {
        came: compare_in(heap, texts, collected)?,
        len: bytes_count(heap, collected)?,
    })
}

// How many bytes the blocks have together.
fn bytes_count(heap: Global, blocks: &[Vec<u8>]) -> Result<usize, AllocError>
    ensures { IfOk result (λ n. n ≡ bytes_count blocks.now) }
{
    Ok(blocks.concat(heap)?.len())
}

// The lines of the sheet, each in words of its own.

// What became of all that went one way, by the end that sent it.
#[derive(Clone, Copy)]
enum WayWords {
    ToModem(WayCounts),
    ToTerminal(WayCounts),
}

#[derive(Clone, Copy)]
struct GoneWords(WayCounts);

#[derive(Clone, Copy)]
struct CameWords(WayCounts);

impl fmt::Display for Sheet {
    ghost output = { λ s. Some (sheet_words s) };

    fn fmt<W: fmt::Write>(&self, f: &mut fmt::Formatter<W>) -> fmt::Result {
        let Sheet {
            to_modem,
            to_terminal,
            order,
            texts,
            rule,
        } = *self;
        let to_modem = WayWords::ToModem(to_modem);
        let to_terminal = WayWords::ToTerminal(to_terminal);
        write!(f, "{to_modem}\n{to_terminal}\n{order}\n{texts}\n{rule}")
    }
}

impl fmt::Display for WayWords {
    ghost output = { λ w. Some (way_words w) };

    fn fmt<W: fmt::Write>(&self, f: &mut fmt::Formatter<W>) -> fmt::Result {
        match *self {
            WayWords::ToModem(counts) => write!(
                f,
                "Terminal to modem: {}\nTerminal to modem: {}",
                GoneWords(counts),
                CameWords(counts)
            ),
            WayWords::ToTerminal(counts) => write!(
                f,
                "Modem to terminal: {}\nModem to terminal: {}",
                GoneWords(counts),
                CameWords(counts)
            ),
        }
    }
}

impl fmt::Display for GoneWords {
    ghost output = { λ g. Some (gone_words g.0) };

    fn fmt<W: fmt::Write>(&self, f: &mut fmt::Formatter<W>) -> fmt::Result {
        let counts = self.0;
        write!(
            f,
            "{} submitted, {} confirmed, {} doubtful, {} waiting.",
            Kind::Block.of(counts.submitted),
            counts.confirmed,
            counts.doubtful,
            counts.waiting
        )
    }
}

// What was delivered was collected, or waits at the other end.
impl fmt::Display for CameWords {
    ghost output = { λ c. Some (came_words c.0) };

    fn fmt<W: fmt::Write>(&self, f: &mut fmt::Formatter<W>) -> fmt::Result {
        let WayCounts {
            collected,
            there,
            ..
        } = self.0;
        write!(
            f,
            "{} delivered, {collected} collected, {there} waiting there.",
            Kind::Block.of(collected.saturating_add(there))
        )
    }
}

impl fmt::Display for OrderPart {
    ghost output = { λ p. Some (order_part_words p) };

    fn fmt<W: fmt::Write>(&self, f: &mut fmt::Formatter<W>) -> fmt::Result {
        let OrderPart {
            came,
            farewells,
            strange,
        } = *self;
        let Comparison {
            once,
            lost,
            doubled,
            strange: _,
        } = came.came;
        write!(
            f,
            "The order as collected, block by block: {once} came once, {lost} lost, {doubled} doubled.\nFarewells collected: {farewells}. Blocks changed or never submitted: {strange}.\n{came}"
        )
    }
}
