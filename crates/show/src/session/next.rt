// Which calls are made next.
use super::{CHANNEL, Session, Stage, Task};
use crate::cargo::Cargo;
use crate::line::Passage;
use crate::script::AFTER_FAREWELL;
use host::host::State;
use link::call::Call;
use link::pair::Ends;
use order::blocks::block_count;
use std::alloc::{AllocError, Global};

impl<'a> Session<'a> {
    /// The calls that are made next, in order; none at the end, or where nothing more can be done.
    pub fn next_calls(&mut self, ends: &Ends) -> Vec<Call<'a>> {
        let heap = self.rt.alloc();
        if self.failed.is_some() {
            return Vec::new(heap);
        }
        let calls = match self.tasks.pop() {
            Some(task) => self.calls_of(task),
            None => self.own_calls(ends),
        };
        match calls {
            Ok(calls) => calls,
            Err(error) => {
                self.failed = Some(error.into());
                Vec::new(heap)
            }
        }
    }

    fn calls_of(&mut self, task: Task) -> Result<Vec<Call<'a>>, AllocError> {
        let heap = self.rt.alloc();
        match task {
            Task::ModemHears(passage) => {
                let calls = modem_hears(heap, passage.bytes.as_slice());
                self.hearing = Some(passage);
                calls
            }
            Task::ModemCollects => one(heap, Call::TncCollect(CHANNEL)),
            Task::TerminalHears(passage) => {
                let calls = terminal_hears(heap, passage.bytes.as_slice());
                self.hearing = Some(passage);
                calls
            }
            Task::TerminalCollects => one(heap, Call::HostCollect(CHANNEL)),
            Task::TerminalSubmitsAgain(cargo) => {
                self.offered = cargo;
                one(heap, Call::HostSubmitAgain(cargo.bytes(self.text)))
            }
        }
    }

    // What the programs call for where no answer is to be heard: submits as long as there is room,
    // the next stage where this one is through, and else what the terminal's state allows.
    fn own_calls(&mut self, ends: &Ends) -> Result<Vec<Call<'a>>, AllocError> {
        let heap = self.rt.alloc();
        let quiet = self.is_quiet(ends);
        match self.stage {
            Stage::Fresh => {
                self.stage = Stage::Order;
                self.modem_submits(Cargo::Greeting)
            }
            Stage::Order if self.room && self.next < block_count(self.text) => {
                self.terminal_submits(Cargo::Block(self.next))
            }
            Stage::Order if quiet => {
                self.stage = Stage::Reply;
                self.modem_submits(Cargo::Reply)
            }
            Stage::Reply if quiet => {
                self.stage = Stage::Farewell;
                self.record.before_farewell = self.record.to_modem.collected.len();
                self.to_terminal.follow(&AFTER_FAREWELL);
                self.terminal_submits(Cargo::Farewell)
            }
            Stage::Farewell if quiet => Ok(Vec::new(heap)),
            Stage::Order | Stage::Reply | Stage::Farewell => one(heap, act(ends)),
        }
    }

    // Whether all was submitted, nothing waits at either end, and no frame is unanswered.
    fn is_quiet(&self, ends: &Ends) -> bool {
        let idle = matches!(ends.host.state(), State::Idle);
        let sent = self.next == block_count(self.text) && ends.host.waiting(CHANNEL) == 0;
        idle && sent && ends.tnc.waiting(CHANNEL) == 0
    }

    fn terminal_submits(&mut self, cargo: Cargo) -> Result<Vec<Call<'a>>, AllocError> {
        self.offered = cargo;
        let call = Call::HostSubmit(CHANNEL, cargo.bytes(self.text));
        one(self.rt.alloc(), call)
    }

    fn modem_submits(&mut self, cargo: Cargo) -> Result<Vec<Call<'a>>, AllocError> {
        self.offered = cargo;
        let call = Call::TncSubmit(CHANNEL, cargo.bytes(self.text));
        one(self.rt.alloc(), call)
    }
}

// The call that the terminal's state allows.
fn act<'a>(ends: &Ends) -> Call<'a> {
    match ends.host.state() {
        State::Fresh | State::Down => Call::HostOpen,
        State::Idle => Call::HostStep,
        State::Opening { .. } | State::OnItsWay(_, _) => Call::HostTimer,
    }
}

fn one(heap: Global, call: Call<'_>) -> Result<Vec<Call<'_>>, AllocError> {
    let mut calls = Vec::new(heap);
    calls.push(call)?;
    Ok(calls)
}

fn modem_hears<'a>(heap: Global, bytes: &[u8]) -> Result<Vec<Call<'a>>, AllocError> {
    let mut calls = Vec::new(heap);
    for byte in bytes {
        calls.push(Call::TncHear(*byte))?;
    }
    Ok(calls)
}

fn terminal_hears<'a>(heap: Global, bytes: &[u8]) -> Result<Vec<Call<'a>>, AllocError> {
    let mut calls = Vec::new(heap);
    for byte in bytes {
        calls.push(Call::HostHear(*byte))?;
    }
    Ok(calls)
}
