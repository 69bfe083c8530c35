// The device as bytes (include/pit.h, 'Layout of the device'). What stands at which place is said here once for each way: in
// `bytes_of` with `side_of`, and part by part in the functions that take a device out of them.
ghost use Rattle.std.specs.Prelude.{◌+◌, ◌≤◌, ◌<◌, ◌≡◌};
ghost use Rattle.pit_c.specs.Layout.{size, side_size, number_at, side_row, row_of, bytes_of, port_at, link_at, parallel_of, gate_of};
ghost use Rattle.pit_c.specs.Layout.{device_of, bytes_beside};

use device::Device;
use gate::Gate;
use parallel::Parallel;
use port::{Cells, Link, Port, Strobe};
use port_c::PortC;
use timer::{Count, Phase, Prescaler, Timer};

// How many bytes a device takes.
pub(crate) const SIZE: usize = 53;

// How many bytes a port and its pair take, without their outside levels.
const SIDE: usize = 13;

// The number of the four bytes from a place on, least significant first.
fn number_at(bytes: &[u8; SIZE], at: usize) -> u32
    requires { at + 3 < size }
    ensures { result ≡ number_at bytes.now at }
{
    u32::from_le_bytes([bytes[at], bytes[at + 1], bytes[at + 2], bytes[at + 3]])
}

// The bytes of a port and its pair, without their outside levels.
fn side_of(port: Port, pair: Link) -> [u8; SIDE]
    ensures { result ≡ side_row port pair }
{
    [
        port.direction,
        pair.control,
        port.cells.latch,
        port.cells.initial,
        port.cells.first,
        port.cells.second,
        pair.held,
        port.cells.last,
        pair.strobe.wait,
        pair.strobe.pulse,
        pair.strobe.asserted as u8,
        pair.flag1 as u8,
        pair.flag2 as u8,
    ]
}

// The bytes of a device.
fn bytes_of(d: Device) -> [u8; SIZE]
    ensures { result ≡ row_of d }
{
    let p = d.parallel;
    let c = d.gate.c;
    let timer = d.gate.timer;
    let phase = timer.phase;
    let mut row = [0; SIZE];
    row[0] = p.pgcr;
    row[1] = p.psrr;
    row[2] = p.pivr;
    row[3..16].copy_from_slice(&side_of(p.a, p.h12));
    row[16..29].copy_from_slice(&side_of(p.b, p.h34));
    row[29] = c.direction;
    row[30] = c.latch;
    row[31] = timer.tcr;
    row[32] = timer.tivr;
    row[33..37].copy_from_slice(&timer.preload.0.to_le_bytes());
    row[37..41].copy_from_slice(&timer.count.0.to_le_bytes());
    row[41] = phase.prescaler.0;
    row[42] = phase.zds as u8;
    row[43] = phase.square as u8;
    row[44] = phase.due as u8;
    row[45] = p.a.outside;
    row[46] = p.b.outside;
    row[47] = c.outside;
    row[48] = p.h12.level1 as u8;
    row[49] = p.h12.level2 as u8;
    row[50] = p.h34.level1 as u8;
    row[51] = p.h34.level2 as u8;
    row[52] = phase.rise as u8;
    row
}

// A port, whose bytes and its pair's begin at a place, and whose lines' outside levels stand at another.
fn port_of(bytes: &[u8; SIZE], at: usize, outside: usize) -> Port
    requires room { at + side_size ≤ size }
    requires outside_within { outside < size }
    ensures { result ≡ port_at bytes.now at outside }
{
    Port {
        direction: bytes[at],
        cells: Cells {
            latch: bytes[at + 2],
            initial: bytes[at + 3],
            first: bytes[at + 4],
            second: bytes[at + 5],
            last: bytes[at + 7],
        },
        outside: bytes[outside],
    }
}

// Its pair, whose pins' outside levels stand at a place of their own.
fn link_of(bytes: &[u8; SIZE], at: usize, levels: usize) -> Link
    requires room { at + side_size ≤ size }
    requires levels_within { levels + 1 < size }
    ensures { result ≡ link_at bytes.now at levels }
{
    Link {
        control: bytes[at + 1],
        held: bytes[at + 6],
        strobe: Strobe {
            wait: bytes[at + 8],
            pulse: bytes[at + 9],
            asserted: bytes[at + 10] != 0,
        },
        flag1: bytes[at + 11] != 0,
        flag2: bytes[at + 12] != 0,
        level1: bytes[levels] != 0,
        level2: bytes[levels + 1] != 0,
    }
}

// The half of ports and handshakes that bytes stand for. They are read where they are lent: a copy of them into an array of
// its own would stay in every call (docs/PERFORMANCE.md).
#[tactic(auto, unfolding(crate::specs::Layout::parallel_of))]
pub(crate) fn parallel_of(bytes: &[u8; SIZE]) -> Parallel
    ensures { result ≡ parallel_of bytes.now }
{
    Parallel {
        pgcr: bytes[0],
        psrr: bytes[1],
        pivr: bytes[2],
        a: port_of(bytes, 3, 45),
        b: port_of(bytes, 16, 46),
        h12: link_of(bytes, 3, 48),
        h34: link_of(bytes, 16, 50),
    }
}

// The half of timer and port C that bytes stand for.
#[tactic(auto, unfolding(crate::specs::Layout::gate_of))]
pub(crate) fn gate_of(bytes: &[u8; SIZE]) -> Gate
    ensures { result ≡ gate_of bytes.now }
{
    Gate {
        timer: Timer {
            tcr: bytes[31],
            tivr: bytes[32],
            preload: Count(number_at(bytes, 33)),
            count: Count(number_at(bytes, 37)),
            phase: Phase {
                prescaler: Prescaler(bytes[41]),
                zds: bytes[42] != 0,
                square: bytes[43] != 0,
                due: bytes[44] != 0,
                rise: bytes[52] != 0,
            },
        },
        c: PortC {
            direction: bytes[29],
            latch: bytes[30],
            outside: bytes[47],
        },
    }
}

// The device that bytes stand for.
pub(crate) fn device_of(bytes: &[u8; SIZE]) -> Device
    ensures { result ≡ device_of bytes.now }
{
    Device {
        parallel: parallel_of(bytes),
        gate: gate_of(bytes),
    }
}

// Puts a device into the bytes that are lent. The compiler stores there at once, without the row between.
#[tactic(auto, unfolding(crate::specs::Layout::bytes_of))]
pub(crate) fn put_device(device: Device, bytes: &mut [u8; SIZE])
    ensures { bytes.new ≡ bytes_of device }
{
    *bytes = bytes_of(device);
}

// The same, for calls that work longer than storing takes: one copy of the code, and of its constants, serves them.
#[inline(never)]
pub(crate) fn put_whole(device: Device, bytes: &mut [u8; SIZE])
    ensures { bytes.new ≡ bytes_of device }
{
    put_device(device, bytes);
}

// Puts ports and handshakes into the bytes that are lent, beside the timer and port C that they stand for.
pub(crate) fn put_parallel(parallel: Parallel, bytes: &mut [u8; SIZE])
    ensures { bytes.new ≡ bytes_beside bytes.old parallel }
{
    put_device(
        Device {
            parallel,
            gate: gate_of(bytes),
        },
        bytes,
    );
}
