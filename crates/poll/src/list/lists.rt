// How a poll list is read and written.
ghost use Rattle.std.specs.Prelude.{◌≡◌, ℕ, ◌+◌, [], ◌∷◌, map, drop, MatchOption};
ghost use Rattle.poll.specs.List.{GoodList, polled, list_of, text_of, Names, Ascends};

use super::{ListText, PollList};
use crate::channel::{CHANNELS, Channel, Listed};

impl PollList {
    /// Reads a poll list: none unless each value is 1 to 64 and stands once.
    pub fn read(values: &[u8]) -> Option<PollList>
        ensures { MatchOption result (GoodList values.now → ⊥) (λ l. GoodList values.now × (map (λ (c : ℕ). c + 1) (polled l) ≡ values.now)) }
    {
        let mut seen = [false; CHANNELS];
        let mut channels = [Channel::at(0); CHANNELS];
        let mut len = 0;
        for value in values {
            let channel = Listed::new(*value)?.channel();
            let place = usize::from(channel.number());
            if seen[place] {
                return None;
            }
            seen[place] = true;
            channels[len] = channel;
            len += 1;
        }
        Some(PollList {
            channels,
            next: 0,
            len,
        })
    }

    /// The list with nothing left to poll.
    pub fn empty() -> PollList
        ensures { polled result ≡ [] }
    {
        PollList {
            channels: [Channel::at(0); CHANNELS],
            next: 0,
            len: 0,
        }
    }

    /// The channel to poll next; none of an empty list.
    pub fn first(&self) -> Option<Channel>
        ensures { MatchOption result (polled self.now ≡ []) (λ c. polled self.now ≡ c.number ∷ drop 1 (polled self.now)) }
    {
        if self.next < self.len {
            Some(self.channels[self.next])
        } else {
            None
        }
    }

    /// Takes the first channel off the list; an empty list stays as it is.
    pub fn drop_first(&mut self)
        ensures { polled self.new ≡ drop 1 (polled self.old) }
    {
        if self.next < self.len {
            self.next += 1;
        }
    }
}

impl ListText {
    /// Lists each waiting channel, once and ascending. `PollList::read` takes the list as good.
    pub fn of(waiting: &[bool; CHANNELS]) -> ListText
        ensures value { text_of result ≡ list_of waiting.now }
        ensures good { GoodList (text_of result) }
        ensures names { Names waiting.now (text_of result) }
        ensures ascends { Ascends (text_of result) }
    {
        let mut values = [0; CHANNELS];
        let mut len = 0;
        for (place, waits) in waiting.iter().enumerate() {
            if *waits {
                values[len] = Channel::at(place).listed().value();
                len += 1;
            }
        }
        ListText { values, len }
    }

    /// The bytes that are written.
    pub fn bytes(&self) -> &[u8]
        ensures { result.now ≡ text_of self.now }
    {
        &self.values[0..self.len]
    }
}
