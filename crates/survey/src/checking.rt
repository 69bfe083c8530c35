// A list by itself: its refusal, or what it asks for, whatever the device (01, 'The event list').
ghost use Rattle.std.specs.Prelude.{◌≡◌};
ghost use Rattle.wire.specs.List.{parsed};
ghost use Rattle.survey.specs.Check.{told, checked_of};

use event::Event;
use wire::{Events, Refused};

// What a list asks for: answer bytes, and clocks.
#[derive(Clone, Copy, Default)]
pub struct Sums {
    pub answers: usize,
    pub clocks: u32,
}

// Reads a list from its first bit to its end or its refusal.
pub fn check(list: &[u8]) -> Result<Sums, Refused>
    ensures { told result ≡ checked_of (parsed list.now) }
{
    let mut sums = Sums::default();
    let mut events = Events::of(list);
    while let Some(event) = events.next() {
        match event {
            Event::Read(_) => sums.answers += 2,
            Event::PortAcknowledge => sums.answers += 2,
            Event::TimerAcknowledge => sums.answers += 2,
            Event::Clocks(n) => sums.clocks += n,
            Event::Write(_, _) | Event::Pin(_, _) | Event::Reset => {}
        }
    }
    events.end()?;
    Ok(sums)
}
