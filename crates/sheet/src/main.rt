// The worked examples of the data sheet (000, 5.2.1 to 5.2.5) and its handshake sequences (000, 2.1.2 and 2.1.3), played on the
// device one clock at a time. What each line should say was worked out by hand from the paper. The steps come from standard input, a
// letter and two hexadecimal numbers each: = begins an example on a fresh device, and has its title behind, W writes a register, R reads
// one, P sets a pin, S strobes H1, L sets port A's outside levels, U makes rises of a pin, C passes clocks, T shows the timer, H port A
// with its handshake.
#![tactic(auto)]

ghost use Rattle.std.specs.Prelude.{◌<◌};

use device::Device;
use event::map;
use port_c::PortC;
use std::io::{Read, Write};
use std::{fmt, io};

// What a step does, with what its numbers say.
#[derive(Clone, Copy)]
enum Step {
    Example,
    // A register and the value written to it.
    Write(u8, u8),
    // The register read.
    Read(u8),
    // A pin and its level.
    Pin(u8, bool),
    Strobe,
    // The eight outside levels of port A.
    Levels(u8),
    // A pin, and how many rises it has, each before a clock.
    Rises(u8, u8),
    // How many clocks pass.
    Clocks(u16),
    Timer,
    Port,
}

impl Step {
    // The step of a letter and two numbers. Any other letter is H.
    fn new(letter: u8, x: u8, y: u8) -> Step {
        match letter {
            b'=' => Step::Example,
            b'W' => Step::Write(x, y),
            b'R' => Step::Read(x),
            b'P' => Step::Pin(x, y == 1),
            b'S' => Step::Strobe,
            b'L' => Step::Levels(x),
            b'U' => Step::Rises(x, y),
            b'C' => Step::Clocks(u16::from_be_bytes([x, y])),
            b'T' => Step::Timer,
            _ => Step::Port,
        }
    }
}

// What an acknowledge would answer: `report::Answered` in lower case, which the stored output has.
#[derive(Clone, Copy)]
struct Acknowledged(Option<u8>);

impl fmt::Display for Acknowledged {
    fn fmt<W: fmt::Write>(&self, f: &mut fmt::Formatter<W>) -> fmt::Result {
        match self.0 {
            Some(vector) => write!(f, "{vector:02x}"),
            None => write!(f, "--"),
        }
    }
}

// A device in an example, and how many clocks it has had there, as pit_trace's `Part`, with other methods.
#[derive(Clone, Copy)]
struct Sheet {
    device: Device,
    clocks: u64,
}

impl Sheet {
    fn fresh() -> Sheet {
        Sheet {
            device: Device::fresh(),
            clocks: 0,
        }
    }

    // What a read of a register gives; the part is not read.
    fn shown(&self, register: u8) -> u8 {
        self.device.read(register).byte
    }

    // What the timer shows: TOUT, ZDS, the counter and what an acknowledge would answer.
    fn show_timer(&self, out: &mut impl Write) -> io::Result<()> {
        writeln!(
            out,
            "  after {}: TOUT {} ZDS {} count {:02x}{:02x}{:02x} acknowledge {}",
            self.clocks,
            u8::from(self.device.level(map::PC0 + PortC::TOUT)),
            self.shown(map::TSR),
            self.shown(map::CNTRH),
            self.shown(map::CNTRH + 1),
            self.shown(map::CNTRL),
            Acknowledged(self.device.timer_acknowledge()),
        )
    }

    // What port A shows: H2, H1S and its pins.
    fn show_port(&self, out: &mut impl Write) -> io::Result<()> {
        writeln!(
            out,
            "  after {}: H2 {} H1S {} pins {:02x}",
            self.clocks,
            u8::from(self.device.level(map::H2)),
            self.shown(map::PSR) % 2,
            self.shown(map::PAAR),
        )
    }

    // A read, with its byte printed.
    fn read(&mut self, out: &mut impl Write, register: u8) -> io::Result<()> {
        let got = self.device.read(register);
        self.device = got.device;
        writeln!(out, "  register {register} reads {:02x}", got.byte)
    }

    // The eight outside levels of port A.
    fn set_levels(&mut self, levels: u8) {
        for pin in 0..8 {
            self.device = self.device.pin(pin, bits::bit(levels, pin));
        }
    }

    // A rise of a pin.
    fn rise(&mut self, pin: u8) {
        self.device = self.device.pin(pin, false).pin(pin, true);
    }

    // One clock, with a line where it opens the gate.
    fn clock(&mut self, out: &mut impl Write) -> io::Result<()> {
        let stepped = self.device.clock();
        self.device = stepped.part;
        self.clocks = self.clocks.saturating_add(1);
        if stepped.opened {
            writeln!(out, "  opens at {}", self.clocks)?;
        }
        Ok(())
    }

    // One step. An example has its title from the input.
    fn play(&mut self, step: Step, input: &mut impl Read, out: &mut impl Write) -> io::Result<()> {
        match step {
            Step::Example => {
                title(input, out)?;
                *self = Sheet::fresh();
            }
            Step::Write(register, value) => self.device = self.device.write(register, value),
            Step::Read(register) => self.read(out, register)?,
            Step::Pin(pin, level) => self.device = self.device.pin(pin, level),
            Step::Strobe => self.rise(map::H1),
            Step::Levels(levels) => self.set_levels(levels),
            Step::Rises(pin, count) => {
                for _ in 0..count {
                    self.rise(pin);
                    self.clock(out)?;
                }
            }
            Step::Clocks(count) => {
                for _ in 0..count {
                    self.clock(out)?;
                }
            }
            Step::Timer => self.show_timer(out)?,
            Step::Port => self.show_port(out)?,
        }
        Ok(())
    }
}

// An example's title: the rest of its line.
fn title(input: &mut impl Read, out: &mut impl Write) -> io::Result<()> {
    for _ in 0..64 {
        match byte(input)? {
            Some(letter) if letter >= b' ' => out.write_all(&[letter])?,
            _ => return writeln!(out),
        }
    }
    Ok(())
}

// The next byte of standard input, unless it has ended.
fn byte(input: &mut impl Read) -> io::Result<Option<u8>> {
    let mut one = [0];
    let count = input.read(&mut one)?;
    Ok((count == 1).then_some(one[0]))
}

// The number below 16 that a digit spells, 0 where there is none: a letter counts on from 9.
fn value(digit: Option<u8>) -> u8
    ensures { result < 16 }
{
    let code = digit.unwrap_or(0);
    (code % 16 + code / 64 * 9) % 16
}

// The number that a blank and two digits spell.
fn number(input: &mut impl Read) -> io::Result<u8> {
    byte(input)?;
    let high = value(byte(input)?);
    let low = value(byte(input)?);
    Ok(high * 16 + low)
}

// The next step, a line: a letter, a blank, two digits, a blank and two digits. There is none where the input ends, or has a 0 for
// a letter.
fn next_step(input: &mut impl Read) -> io::Result<Option<Step>> {
    match byte(input)? {
        None | Some(0) => Ok(None),
        Some(letter) => {
            let x = number(input)?;
            let y = number(input)?;
            byte(input)?;
            Ok(Some(Step::new(letter, x, y)))
        }
    }
}

// The steps, 512 at most.
fn main(rt: HostRuntime) -> io::Result<()> {
    let mut input = rt.stdin();
    let mut out = rt.stdout();
    let mut sheet = Sheet::fresh();
    for _ in 0..512 {
        let Some(step) = next_step(&mut input)? else {
            return Ok(());
        };
        sheet.play(step, &mut input, &mut out)?;
    }
    Ok(())
}
