// The functions of include/pit.h for one event each. A function takes the device out of its bytes, lets one thing happen to it
// and puts it back, or only the half that it happens to where that is less work (docs/PERFORMANCE.md); where the bytes are not as
// many as a device has, nothing happens. Each says so by itself: with the test and the putting back in one function over a closure the library
// has more constants than tests/header allows.
ghost use Rattle.std.specs.Prelude.{◌≡◌};
ghost use Rattle.parallel.specs.Data.{read_data, write_data};
ghost use Rattle.parallel.specs.Pins.{parallel_pinned};
ghost use Rattle.pit_c.specs.Layout.{parallel_of, bytes_beside};
ghost use Rattle.pit_c.specs.Calls.{done, fresh_call, valid_answer, write_call, read_call, read_answer, pin_call};
ghost use Rattle.pit_c.specs.Calls.{clocks_call, clocks_row, clocks_opened, reset_call};
ghost use Rattle.pit_c.specs.Calls.{answer_number, port_acknowledge_answer, timer_acknowledge_answer, levels_of, levels_answer};

use crate::layout::{SIZE, device_of, gate_of, parallel_of, put_device, put_parallel, put_whole};
use device::Device;
use event::map;
use gate::Gate;
use parallel::Parallel;
use port::Pair;
use timer::ClockNumber;

// What a call answers where a size is not the one it asks for: PIT_WRONG_SIZE of include/pit.h, where C takes a number.
pub(crate) const WRONG_SIZE: u32 = 0xffff_ffff;

// What an acknowledge answers where the part does not respond: PIT_SILENT of include/pit.h, beside the vectors, which are bytes.
const SILENT: u32 = 0x100;

// What is answered for an acknowledge.
fn answer_number(vector: Option<u8>) -> u32
    ensures { result ≡ answer_number vector }
{
    vector.map_or(SILENT, u32::from)
}

// The levels shown at the 28 pins, bit n for pin n.
#[tactic(auto, unfolding(crate::specs::Calls::levels_of, device::specs::Pins::pins_c))]
fn levels(p: Parallel, gate: Gate) -> u32
    ensures { result ≡ levels_of (record { parallel = p; gate = gate }) }
{
    let c = gate.c.shown(gate.timer, p.psrr, p.requests());
    let handshakes = bits::packed(
        false,
        false,
        false,
        false,
        p.second_level(Pair::H34),
        p.h34.level1,
        p.second_level(Pair::H12),
        p.h12.level1,
    );
    u32::from_le_bytes([p.pins(Pair::H12), p.pins(Pair::H34), c, handshakes])
}

// Writes data A or B.
fn write_data(bytes: &mut [u8; SIZE], pair: Pair, value: u8) -> u32
    ensures answer { result ≡ 0 }
    ensures device { bytes.new ≡ bytes_beside bytes.old (write_data (parallel_of bytes.old) pair value) }
{
    put_parallel(parallel_of(bytes).write(pair, value), bytes);
    0
}

// Reads data A or B.
fn read_data(bytes: &mut [u8; SIZE], pair: Pair) -> u32
    ensures answer { result ≡ (read_data (parallel_of bytes.old) pair).byte }
    ensures device { bytes.new ≡ bytes_beside bytes.old (read_data (parallel_of bytes.old) pair).parallel }
{
    let p = parallel_of(bytes);
    put_parallel(p.read(pair), bytes);
    p.byte(pair) as u32
}

// A level comes to a pin that is not port C's.
fn parallel_pin(bytes: &mut [u8; SIZE], pin: u8, level: bool) -> u32
    ensures answer { result ≡ 0 }
    ensures device { bytes.new ≡ bytes_beside bytes.old (parallel_pinned (parallel_of bytes.old) pin level) }
{
    put_parallel(parallel_of(bytes).pin(pin, level), bytes);
    0
}

// Makes a fresh device.
#[unsafe(no_mangle)]
pub extern "C" fn pit_fresh(device: &mut [u8]) -> u32
    ensures answer { result ≡ done device.old }
    ensures device { device.new ≡ fresh_call device.old }
{
    let Some(bytes) = device.as_mut_array() else {
        return WRONG_SIZE;
    };
    put_device(Device::fresh(), bytes);
    0
}

// Whether the device is not refused with 8.
#[tactic(auto, unfolding(device::specs::Validity::valid_of))]
#[unsafe(no_mangle)]
pub extern "C" fn pit_valid(device: &[u8]) -> u32
    ensures { result ≡ valid_answer device.now }
{
    let Some(bytes) = device.as_array() else {
        return WRONG_SIZE;
    };
    (parallel_of(bytes).sound() & gate_of(bytes).sound()) as u32
}

// Writes a register.
#[tactic(auto, unfolding(device::specs::Registers::write_of))]
#[unsafe(no_mangle)]
pub extern "C" fn pit_write(device: &mut [u8], number: u8, value: u8) -> u32
    ensures answer { result ≡ done device.old }
    ensures device { device.new ≡ write_call device.old number value }
{
    let Some(bytes) = device.as_mut_array() else {
        return WRONG_SIZE;
    };
    match number {
        map::PADR => write_data(bytes, Pair::H12, value),
        map::PBDR => write_data(bytes, Pair::H34, value),
        _ => {
            put_whole(device_of(bytes).write(number, value), bytes);
            0
        }
    }
}

// Reads a register. Only data A and B change the device.
#[tactic(auto, unfolding(device::specs::Registers::read_of))]
#[unsafe(no_mangle)]
pub extern "C" fn pit_read(device: &mut [u8], number: u8) -> u32
    ensures answer { result ≡ read_answer device.old number }
    ensures device { device.new ≡ read_call device.old number }
{
    let Some(bytes) = device.as_mut_array() else {
        return WRONG_SIZE;
    };
    match number {
        map::PADR => read_data(bytes, Pair::H12),
        map::PBDR => read_data(bytes, Pair::H34),
        _ => {
            let d = device_of(bytes);
            put_device(d, bytes);
            d.peek(number) as u32
        }
    }
}

// An outside level comes to a pin.
#[tactic(auto, using(device::specs::Pins::other_pins))]
#[unsafe(no_mangle)]
pub extern "C" fn pit_pin(device: &mut [u8], pin: u8, level: u8) -> u32
    ensures answer { result ≡ done device.old }
    ensures device { device.new ≡ pin_call device.old pin level }
{
    let Some(bytes) = device.as_mut_array() else {
        return WRONG_SIZE;
    };
    match pin {
        map::PC0..=map::PC7 => {
            put_device(device_of(bytes).pin(pin, level != 0), bytes);
            0
        }
        _ => parallel_pin(bytes, pin, level != 0),
    }
}

// Clocks pass, after those that passed before. The numbers of those that open go into the row, as far as it reaches, and how many
// there were to `opened`.
#[tactic(auto, unfolding(gate::specs::Clocking::gate_run), using(device::specs::ManyClocks::halves, device::specs::ManyClocks::opens, clocks::specs::Numbers::at_most))]
#[unsafe(no_mangle)]
pub extern "C" fn pit_clocks(
    device: &mut [u8],
    clocks: u32,
    passed: u32,
    openings: &mut [u32],
    opened: &mut u32,
) -> u32
    ensures answer { result ≡ done device.old }
    ensures device { device.new ≡ clocks_call device.old clocks }
    ensures openings { openings.new ≡ clocks_row device.old clocks passed openings.old }
    ensures opened { opened.new ≡ clocks_opened device.old clocks passed opened.old }
{
    let Some(bytes) = device.as_mut_array() else {
        return WRONG_SIZE;
    };
    let parallel = parallel_of(bytes).clocks(clocks);
    let run = gate_of(bytes).clocks(clocks, ClockNumber(passed), openings, 0);
    put_device(
        Device {
            parallel,
            gate: run.part,
        },
        bytes,
    );
    *opened = run.used as u32;
    0
}

// Resets the part.
#[unsafe(no_mangle)]
pub extern "C" fn pit_reset(device: &mut [u8]) -> u32
    ensures answer { result ≡ done device.old }
    ensures device { device.new ≡ reset_call device.old }
{
    let Some(bytes) = device.as_mut_array() else {
        return WRONG_SIZE;
    };
    put_device(device_of(bytes).reset(), bytes);
    0
}

// Acknowledges a port interrupt.
#[unsafe(no_mangle)]
pub extern "C" fn pit_port_acknowledge(device: &[u8]) -> u32
    ensures { result ≡ port_acknowledge_answer device.now }
{
    let Some(bytes) = device.as_array() else {
        return WRONG_SIZE;
    };
    answer_number(parallel_of(bytes).acknowledge())
}

// Acknowledges a timer interrupt.
#[unsafe(no_mangle)]
pub extern "C" fn pit_timer_acknowledge(device: &[u8]) -> u32
    ensures { result ≡ timer_acknowledge_answer device.now }
{
    let Some(bytes) = device.as_array() else {
        return WRONG_SIZE;
    };
    answer_number(gate_of(bytes).timer.acknowledge())
}

// The levels shown at the 28 pins.
#[unsafe(no_mangle)]
pub extern "C" fn pit_levels(device: &[u8]) -> u32
    ensures { result ≡ levels_answer device.now }
{
    let Some(bytes) = device.as_array() else {
        return WRONG_SIZE;
    };
    levels(parallel_of(bytes), gate_of(bytes))
}
