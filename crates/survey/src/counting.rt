// How many openings a list has on a device, found by following the gate alone (01, 'The event list', refusal 7).
ghost use Rattle.std.specs.Prelude.{◌≡◌};
ghost use Rattle.wire.specs.List.{parsed};
ghost use Rattle.survey.specs.Survey.{opened_by};

use crate::watching::watch_clocks;
use device::Device;
use event::Event;
use wire::Events;

// Follows the gate of the device from a list's first bit to its end. A refused list plays nothing, and opens nothing. Each way of
// clocks ends in `continue`: where they join, the pass takes up to a third more instructions. Clocks go as in `run` of play, which lists their
// numbers too.
#[tactic(auto, unfolding(crate::specs::Watching::watched_clocks))]
pub fn count_openings(list: &[u8], device: Device) -> usize
    ensures { result ≡ opened_by device (parsed list.now) }
{
    let mut gate = device.gate;
    let mut opened: usize = 0;
    let mut events = Events::of(list);
    while let Some(event) = events.next() {
        match event {
            Event::Write(register, value) => {
                gate = gate.write(register, value);
                continue;
            }
            Event::Pin(pin, level) => {
                gate = gate.pin(pin, level);
                continue;
            }
            Event::Clocks(n) => {
                if gate.quiet(n) {
                    gate = gate.passed(n);
                    continue;
                }
                if gate.regular() {
                    opened += gate.opened(n);
                    gate = gate.gone_on(n);
                    continue;
                }
                let watched = watch_clocks(gate, n);
                gate = watched.part;
                opened += watched.used;
                continue;
            }
            Event::Reset => {
                gate = gate.reset();
                continue;
            }
            Event::Read(_) | Event::PortAcknowledge | Event::TimerAcknowledge => {}
        }
    }
    if events.end().is_ok() { opened } else { 0 }
}
