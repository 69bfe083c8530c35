// A list's events in turn.
ghost use Rattle.play.specs.Run.{Runs};

use crate::ahead::clocks_ahead;
use crate::playing::{Played, Totals};
use crate::storing::answer;
use device::Device;
use event::{Event, map};
use port::Pair;
use timer::ClockNumber;
use wire::Events;

// Plays the events of a list that was checked. What does not fit the bytes and the row is counted and not stored. The device stands in one
// place, and each event changes there the part that it touches (docs/PERFORMANCE.md): so handshakes that clocks leave alone are not handed
// to a function, and each pair has an arm of its own.
pub(crate) fn run(list: &[u8], given: Device, answers: &mut [u8], row: &mut [u32]) -> Played
    ensures { Runs list.now given answers.old row.old result answers.new row.new }
{
    let mut device = given;
    let mut answered: usize = 0;
    let mut opened: usize = 0;
    let mut clocks: u32 = 0;
    for event in Events::of(list) {
        match event {
            Event::Write(register, value) => match register {
                map::PADR => device.parallel = device.parallel.write(Pair::H12, value),
                map::PBDR => device.parallel = device.parallel.write(Pair::H34, value),
                _ => device = device.write(register, value),
            },
            Event::Read(register) => {
                answer(answers, answered, Some(device.peek(register)));
                answered += 2;
                match register {
                    map::PADR => device.parallel = device.parallel.read(Pair::H12),
                    map::PBDR => device.parallel = device.parallel.read(Pair::H34),
                    _ => {}
                }
            }
            Event::PortAcknowledge => {
                answer(answers, answered, device.port_acknowledge());
                answered += 2;
            }
            Event::TimerAcknowledge => {
                answer(answers, answered, device.timer_acknowledge());
                answered += 2;
            }
            Event::Pin(pin, level) => match pin {
                map::PA0..=map::PA7 => {
                    device.parallel.a.outside = bits::with_bit(
                        device.parallel.a.outside,
                        pin,
                        level,
                    );
                }
                map::PB0..=map::PB7 => {
                    device.parallel.b.outside = bits::with_bit(
                        device.parallel.b.outside,
                        pin - map::PB0,
                        level,
                    );
                }
                map::PC0..=map::PC7 => device.gate = device.gate.line(pin - map::PC0, level),
                map::H1 => device.parallel = device.parallel.first_pin(Pair::H12, level),
                map::H3 => device.parallel = device.parallel.first_pin(Pair::H34, level),
                _ => device.parallel = device.parallel.pin(pin, level),
            },
            Event::Clocks(n) => {
                if !(device.parallel.h12.untimed() & device.parallel.h34.untimed()) {
                    device.parallel = device.parallel.clocks(n);
                }
                if device.gate.quiet(n) {
                    device.gate = device.gate.passed(n);
                } else if device.gate.regular() {
                    device.gate.list(n, ClockNumber(clocks), row, opened);
                    opened += device.gate.opened(n);
                    device.gate = device.gate.gone_on(n);
                } else {
                    let run = clocks_ahead(device.gate, n, ClockNumber(clocks), row, opened);
                    device.gate = run.part;
                    opened += run.used;
                }
                clocks += n;
            }
            Event::Reset => device = device.reset(),
        }
    }
    Played {
        device,
        totals: Ok(Totals {
            answers: answered,
            openings: opened,
            clocks,
        }),
    }
}
