// Plays a list from standard input on a fresh device, and prints what the part shows after each event.
#![tactic(auto)]

use arrayvec::{ArrayString, ArrayVec};
use device::Device;
use event::Event;
use report::Answered;
use std::fmt::Write as _;
use std::io;
use std::io::Write;
use timer::ClockNumber;
use wire::Events;

// The levels of all pins.
fn pins(out: &mut impl Write, d: Device) -> io::Result<()> {
    let mut digits = [0u8; 28];
    for (pin, digit) in digits.iter_mut().enumerate() {
        *digit = report::digit(u8::from(d.level(pin as u8)));
    }
    out.write_all(&digits)
}

// What a read of each register would give, each from the device as it stands.
fn registers(out: &mut impl Write, d: Device) -> io::Result<()> {
    for register in 0..32 {
        report::hex(out, d.read(register).byte)?;
    }
    Ok(())
}

// The part, and the clocks that it has had.
#[derive(Clone, Copy)]
struct Part {
    device: Device,
    clocks: u64,
}

impl Part {
    // What an event makes of it.
    fn happen(&mut self, event: Event) {
        self.device = match event {
            Event::Write(register, value) => self.device.write(register, value),
            Event::Read(register) => self.device.read(register).device,
            Event::PortAcknowledge | Event::TimerAcknowledge => self.device,
            Event::Pin(pin, level) => self.device.pin(pin, level),
            Event::Clocks(n) => {
                self.clocks = self.clocks % 4294967296 + u64::from(n);
                self.device.clocks(n, ClockNumber(0), &mut [0], 1).part
            }
            Event::Reset => self.device.reset(),
        };
    }

    // The part after so many events: a line of 164 bytes at most, put together in place, so that it goes out by one write.
    fn show(&self, out: &mut impl Write, events: u64) -> io::Result<()> {
        let mut line = ArrayVec::<u8, 192>::new();
        write!(line, "T {events} {} PINS=", self.clocks)?;
        pins(&mut line, self.device)?;
        write!(line, " REGS=")?;
        registers(&mut line, self.device)?;
        let port = Answered(self.device.port_acknowledge());
        let timer = Answered(self.device.timer_acknowledge());
        writeln!(line, " PACK={port} TACK={timer}")?;
        out.write_all(&line)
    }
}

// A line after each event of a list.
fn events(out: &mut impl Write, list: &[u8]) -> io::Result<()> {
    let mut part = Part {
        device: Device::fresh(),
        clocks: 0,
    };
    for (number, event) in (0..u64::MAX).zip(Events::of(list)) {
        part.happen(event);
        part.show(out, number)?;
    }
    Ok(())
}

// The lines of a list. No more than was lent is ever used, which `min` shows where the slices are cut.
// Alike in pit_run but for the middle, which says why.
fn played(out: &mut impl Write, list: &[u8]) -> io::Result<()> {
    let mut bytes = [0u8; 32768];
    let mut row = [0u32; 8192];
    match play::play(list, Device::fresh(), &mut bytes, &mut row).totals {
        Ok(totals) => {
            report::refusal(out, 0, 0)?;
            events(out, list)?;
            report::openings(out, &row[..totals.openings.min(row.len())])?;
            report::clocks(out, totals.clocks)
        }
        Err(refused) => report::refusal(out, refused.refusal.into(), refused.place),
    }
}

// Why standard input can't be read, by one write: what the system says of an error fits 256 bytes, and the line then 320. Apart from `main`,
// whose stack it would add to.
#[inline(never)]
fn unread(out: &mut impl Write, error: io::Error) -> io::Result<()> {
    let mut reason = ArrayString::<256>::new();
    write!(reason, "{error}")?;
    let mut line = ArrayVec::<u8, 320>::new();
    report::unread(&mut line, "pit-trace", &reason)?;
    out.write_all(&line)
}

fn main(rt: HostRuntime) -> io::Result<()> {
    let mut list = ArrayVec::new();
    match report::read_list(rt.stdin(), &mut list) {
        Ok(()) => report::printed(played(&mut rt.stdout(), &list)),
        Err(error) => unread(&mut rt.stderr(), error),
    }
}
