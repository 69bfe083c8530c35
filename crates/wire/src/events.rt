// The events of a list, one after the other (01, 'The event list').
ghost use Rattle.std.specs.Prelude.{◌≡◌, ◌-◌};
ghost use Rattle.wire.specs.Next.{next_at};
ghost use Rattle.wire.specs.Told.{refusal_told};
ghost use Rattle.wire.specs.Events.{from_first, refusal_in};

use crate::next::{MOST_BYTES, next_event, size_of};
use crate::refusal::Refused;
use crate::word::{AFTER_KIND, END, event_of, word_at};
use event::Event;

// A list, read up to bit at. It gives the events that stand from there on, until none stands where it has come to.
#[derive(Clone, Copy)]
pub struct Events<'a> {
    list: &'a [u8],
    at: usize,
}

impl<'a> Events<'a> {
    // A list from its first bit on.
    pub fn of(list: &'a [u8]) -> Events<'a>
        ensures { result ≡ from_first list.entry }
    {
        Events { list, at: 0 }
    }

    // The refusal that stands where it has come to, if one does; where neither that nor an event stands, the list ends. 01 asks for let else here
    // (docs/DECISIONS.md).
    pub fn end(&self) -> Result<(), Refused>
        ensures { refusal_told result ≡ refusal_in (next_at self.now.list.now self.now.at) }
    {
        let Err(refused) = next_event(self.list, self.at) else {
            return Ok(());
        };
        Err(refused)
    }
}

impl<'a> Iterator for Events<'a> {
    ghost use Rattle.std.specs.Iterator.{at_most};
    ghost use Rattle.wire.specs.Field.{bits_in};
    ghost use Rattle.wire.specs.Events.{GivesEvent};

    type Item = Event;

    ghost next_gives = { GivesEvent };

    ghost remaining = { λ reading. at_most (bits_in reading.list.now - reading.at) };

    #[inline(always)]
    fn next(&mut self) -> Option<Event> {
        if MOST_BYTES < self.list.len() {
            return None;
        }
        let word = word_at(self.list, self.at);
        let kind = word >> AFTER_KIND;
        if END <= kind {
            return None;
        }
        let event = event_of(word);
        self.at += size_of(kind);
        Some(event)
    }
}
