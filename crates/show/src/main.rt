// An order goes from the terminal to the modem over a line with noise, loss and repeats, and the
// modem's side replies. What each call answers is told in words, and at the end what became of
// every block.
#![tactic(auto)]

mod cargo;
mod line;
mod own;
mod passing;
mod record;
mod script;
mod session;
mod settled;
mod sheet;
mod there;
mod words;

use crate::session::{CHANNEL, Session};
use crate::sheet::sheet;
use crate::there::There;
use anyhow::{Result, anyhow};
use frame::form::BLOCK;
use host::host::Host;
use link::pair::{Ends, Stores};
use order::blocks::block_count;
use order::words::Kind;
use shelf::Shelf;
use std::io;
use std::io::Read;
use store::Store;
use strip::refusal::check;
use strip::{RECORD, Strip};
use tnc::tnc::Tnc;
use wire::writer::WIRE;

// How often the terminal repeats a frame.
const REPEATS: u8 = 3;

// The area of a strip: room for four blocks.
const AREA: usize = 4 * RECORD;

fn main(rt: HostRuntime) -> Result<()> {
    let text = order_text(&rt)?;
    println!(rt;
        "Order: {} in {} for channel {CHANNEL}. The terminal repeats a frame {REPEATS} times at most.",
        Kind::Byte.of(text.len()),
        Kind::Block.of(block_count(text.as_slice()))
    )?;
    let mut terminal_area = [0; AREA];
    let mut modem_area = [0; AREA];
    let mut stores = Stores {
        host_out: Shelf::new(),
        host_in: strip_in(&mut terminal_area)?,
        tnc_out: strip_in(&mut modem_area)?,
        tnc_in: Shelf::new(),
    };
    let mut ends = Ends {
        host: host()?,
        tnc: Tnc::new(),
    };
    let mut session = Session::new(&rt, text.as_slice());
    play(&mut ends, &mut stores, &mut session);
    let record = session.finish()?;
    let sheet = sheet(rt.alloc(), text.as_slice(), &record, There::of(&stores))?;
    println!(rt; "{sheet}")?;
    Ok(())
}

// The order from standard input, or one of our own.
fn order_text(rt: &HostRuntime) -> io::Result<Vec<u8>> {
    let mut text = Vec::new(rt.alloc());
    rt.stdin().read_to_end(&mut text)?;
    if text.is_empty() {
        text.extend_from_slice(own::ORDER.as_bytes())?;
    }
    Ok(text)
}

fn strip_in(area: &mut [u8]) -> Result<Strip<'_>> {
    match check(area) {
        Ok(()) => Ok(Strip::new(area)),
        Err(refusal) => Err(anyhow!("no strip is made: refusal {}", refusal.number())),
    }
}

fn host() -> Result<Host> {
    match Host::new(REPEATS) {
        Ok(host) => Ok(host),
        Err(refusal) => Err(anyhow!("no host is made: refusal {}", refusal.number())),
    }
}

// Plays what the session calls for, a list of calls after the other, until it calls for nothing
// more.
fn play<A: Store, B: Store, C: Store, D: Store>(
    ends: &mut Ends,
    stores: &mut Stores<A, B, C, D>,
    session: &mut Session<'_>,
) {
    let mut wire = [0; WIRE];
    let mut block = [0; BLOCK];
    for _ in 0..u64::MAX {
        let calls = session.next_calls(ends);
        if calls.is_empty() {
            break;
        }
        ends.play(stores, &mut wire, &mut block, calls.as_slice(), session);
    }
}
