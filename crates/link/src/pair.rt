// Both ends, their four stores, and lists of calls on them.
ghost use Rattle.std.specs.Prelude.{◌≡◌, ◌<◌, MatchResult};
ghost use Rattle.ends.specs.declared.refusal.Refusal.TheVariants.{ManyRepeats};
ghost use Rattle.ends.specs.Limits.{most_repeats};
ghost use Rattle.link.specs.New.{AreNew};
ghost use Rattle.link.specs.Played.{both, call_of, One, Gave, Plays};

use crate::call::Call;
use crate::event::Event;
use crate::observer::Observer;
use ends::refusal::Refusal;
use host::host::Host;
use store::Store;
use tnc::tnc::Tnc;

/// A host and a TNC.
#[derive(Drop)]
pub struct Ends {
    pub host: Host,
    pub tnc: Tnc,
}

/// The four stores of both ends.
#[derive(Drop)]
pub struct Stores<A, B, C, D> {
    pub host_out: A,
    pub host_in: B,
    pub tnc_out: C,
    pub tnc_in: D,
}

impl Ends {
    /// A fresh host that repeats a frame as often as set, and a TNC that has heard nothing; refuses
    /// 18 above 15.
    pub fn new(repeats: u8) -> Result<Ends, Refusal>
        ensures { MatchResult result (AreNew repeats)
            (λ e. (most_repeats < repeats) × (e ≡ ManyRepeats)) }
    {
        Ok(Ends {
            host: Host::new(repeats)?,
            tnc: Tnc::new(),
        })
    }

    /// Makes the calls of a list, one after the other. The observer gives the notes, and is told of
    /// each.
    pub fn play<A: Store, B: Store, C: Store, D: Store, W: Observer>(
        &mut self,
        stores: &mut Stores<A, B, C, D>,
        wire: &mut [u8],
        block: &mut [u8],
        calls: &[Call],
        observer: &mut W,
    )
        ensures { let at = both A.meaning B.meaning C.meaning D.meaning in
            Plays W.gives W.sees calls.now
            (at self.old stores.old wire.old block.old)
            (at self.new stores.new wire.new block.new)
            observer.old observer.new }
    {
        for call in calls {
            let event = self.make(stores, wire, block, *call, observer);
            observer.observe(event, wire, block);
        }
    }

    // Makes one call.
    fn make<'a, A: Store, B: Store, C: Store, D: Store, W: Observer>(
        &mut self,
        stores: &mut Stores<A, B, C, D>,
        wire: &mut [u8],
        block: &mut [u8],
        call: Call<'a>,
        observer: &mut W,
    ) -> Event<'a>
        ensures call { call_of result ≡ call.entry }
        ensures one { let at = both A.meaning B.meaning C.meaning D.meaning in
            One (at self.old stores.old wire.old block.old) result
            (at self.new stores.new wire.new block.new) }
        ensures gave { Gave W.gives result observer.old observer.new }
    {
        let Ends { host, tnc } = self;
        let Stores {
            host_out,
            host_in,
            tnc_out,
            tnc_in,
        } = stores;
        match call {
            Call::HostOpen => Event::HostOpen(host.open(wire)),
            Call::HostStep => Event::HostStep(host.step(host_out, wire)),
            Call::HostTimer => Event::HostTimer(host.timer(host_out, wire)),
            Call::HostHear(byte) => Event::HostHear(byte, host.hear(host_out, host_in, byte)),
            Call::HostSubmit(channel, bytes) => {
                Event::HostSubmit(channel, bytes, host.submit(host_out, channel, bytes))
            }
            Call::HostSubmitAgain(bytes) => match observer.note() {
                Some(note) => Event::HostSubmitAgain(
                    note.channel(),
                    note.number(),
                    bytes,
                    host.submit_again(host_out, note, bytes),
                ),
                None => Event::NoNote(bytes),
            },
            Call::HostCollect(channel) => {
                Event::HostCollect(channel, host.collect(host_in, channel, block))
            }
            Call::TncHear(byte) => Event::TncHear(byte, tnc.hear(tnc_out, tnc_in, byte, wire)),
            Call::TncSubmit(channel, bytes) => {
                Event::TncSubmit(channel, bytes, tnc.submit(tnc_out, channel, bytes))
            }
            Call::TncCollect(channel) => {
                Event::TncCollect(channel, tnc.collect(tnc_in, channel, block))
            }
        }
    }
}
