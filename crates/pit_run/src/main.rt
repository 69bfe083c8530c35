// Plays a list from standard input on a fresh device, and prints what came of it (01, 'Lists to try').
#![tactic(auto)]

use arrayvec::{ArrayString, ArrayVec};
use device::Device;
use report::Answered;
use std::fmt::Write as _;
use std::io;
use std::io::Write;

// A line for each answer, which is two bytes: whether the part responded, and with what.
fn answers(out: &mut impl Write, bytes: &[u8]) -> io::Result<()> {
    let (answers, _) = bytes.as_chunks::<2>();
    for [responds, byte] in answers {
        let [high, low] = Answered((*responds == 1).then_some(*byte)).text();
        out.write_all(&[b'A', b' ', high, low, b'\n'])?;
    }
    Ok(())
}

// The lines of a list. No more than was lent is ever used, which `min` shows where the slices are cut.
// Alike in pit_trace but for the middle, and `main` but for this: one function for both would be public, and over a closure it would have a
// `requires`, which no public function has; a trait with a name and a method for each program is longer than what it spares.
fn played(out: &mut impl Write, list: &[u8]) -> io::Result<()> {
    let mut bytes = [0u8; 32768];
    let mut row = [0u32; 8192];
    match play::play(list, Device::fresh(), &mut bytes, &mut row).totals {
        Ok(totals) => {
            report::refusal(out, 0, 0)?;
            answers(out, &bytes[..totals.answers.min(bytes.len())])?;
            report::openings(out, &row[..totals.openings.min(row.len())])?;
            report::clocks(out, totals.clocks)
        }
        Err(refused) => report::refusal(out, refused.refusal.into(), refused.place),
    }
}

// Why standard input can't be read, by one write: what the system says of an error fits 256 bytes, and the line then 320. Apart from `main`,
// whose stack it would add to.
#[inline(never)]
fn unread(out: &mut impl Write, error: io::Error) -> io::Result<()> {
    let mut reason = ArrayString::<256>::new();
    write!(reason, "{error}")?;
    let mut line = ArrayVec::<u8, 320>::new();
    report::unread(&mut line, "pit-run", &reason)?;
    out.write_all(&line)
}

fn main(rt: HostRuntime) -> io::Result<()> {
    let mut list = ArrayVec::new();
    match report::read_list(rt.stdin(), &mut list) {
        Ok(()) => report::printed(played(&mut rt.stdout(), &list)),
        Err(error) => unread(&mut rt.stderr(), error),
    }
}
