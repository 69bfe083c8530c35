// The lines that the programs print (01, 'Lists to try'). Where a writer tells what it holds, as a vector does, a contract says
// what is written; of standard output none can, and the programs' output is compared with stored files.
#![tactic(auto)]

mod streams;

ghost use Rattle.std.specs.Prelude.{◌≡◌, IfOk, OnOk, Some};
ghost use Rattle.std.specs.Io.KnownBytes.{Appends};
ghost use Rattle.report.specs.Digit.{digit_of};
ghost use Rattle.report.specs.Lines.{two_digits, answer_text, refusal_line, opening_line, opening_lines, clocks_line};

use arrayvec::ArrayVec;
use std::io::Write;
use std::{fmt, io};
pub use streams::{MOST_READ, printed, read_list, unread};

// The digit of a number below 16, in upper case; of any other number that of its remainder by 16. Public, with a contract of its own (`digit_of`).
#[tactic(auto, unfolding(crate::specs::Digit::digit_of))]
pub fn digit(n: u8) -> u8
    ensures { result ≡ digit_of n }
{
    match n % 16 {
        d @ 0..10 => b'0' + d,
        d => b'A' + (d - 10),
    }
}

// A byte as two digits.
#[tactic(auto, using(crate::proofs::Digits::two_of_byte))]
pub fn hex<W: Write>(out: &mut W, byte: u8) -> io::Result<()>
    ensures ok { IfOk result (λ r. r ≡ tt) }
    ensures written { OnOk result (Appends (W.contents out.old) (W.contents out.new) (two_digits byte)) }
{
    write!(out, "{byte:02X}")
}

// What the part answers, or that it does not respond.
#[derive(Clone, Copy)]
pub struct Answered(pub Option<u8>);

impl Answered {
    // Its two characters.
    #[tactic(auto, unfolding(crate::specs::Lines::answer_text, crate::specs::Lines::two_digits))]
    pub fn text(self) -> [u8; 2]
        ensures { result ≡ answer_text self.0 }
    {
        match self.0 {
            Some(byte) => [digit(byte / 16), digit(byte)],
            None => *b"--",
        }
    }
}

impl fmt::Display for Answered {
    ghost output = { λ a. Some (answer_text a.0) };

    #[tactic(auto, unfolding(crate::specs::Lines::answer_text), using(crate::proofs::Digits::two_of_byte))]
    fn fmt<W: fmt::Write>(&self, f: &mut fmt::Formatter<W>) -> fmt::Result {
        match self.0 {
            Some(byte) => write!(f, "{byte:02X}"),
            None => write!(f, "--"),
        }
    }
}

// A line of 01's, put together in place: it goes out by one write, and no memory is asked for. The longest is a refusal's: 27 bytes.
type Line = ArrayVec<u8, 32>;

// `R`, a refusal and its place. A number, 0 for none, as 01 prints it: `refusal_line` is for any.
#[tactic(auto, unfolding(crate::specs::Lines::refusal_line))]
pub fn refusal<W: Write>(out: &mut W, number: u8, place: usize) -> io::Result<()>
    ensures ok { IfOk result (λ r. r ≡ tt) }
    ensures written { OnOk result (Appends (W.contents out.old) (W.contents out.new) (refusal_line number place)) }
{
    let mut line = Line::new();
    writeln!(line, "R {number} {place}")?;
    out.write_all(&line)
}

#[tactic(auto, unfolding(crate::specs::Lines::opening_line))]
fn opening<W: Write>(out: &mut W, clock: u32) -> io::Result<()>
    ensures { OnOk result (Appends (W.contents out.old) (W.contents out.new) (opening_line clock)) }
{
    let mut line = Line::new();
    writeln!(line, "G {clock}")?;
    out.write_all(&line)
}

// `G` and its clock for each opening.
pub fn openings<W: Write>(out: &mut W, clocks: &[u32]) -> io::Result<()>
    ensures ok { IfOk result (λ r. r ≡ tt) }
    ensures written { OnOk result (Appends (W.contents out.old) (W.contents out.new) (opening_lines clocks.now)) }
{
    for clock in clocks {
        opening(out, *clock)?;
    }
    Ok(())
}

// `C` and all clocks.
#[tactic(auto, unfolding(crate::specs::Lines::clocks_line))]
pub fn clocks<W: Write>(out: &mut W, n: u32) -> io::Result<()>
    ensures ok { IfOk result (λ r. r ≡ tt) }
    ensures written { OnOk result (Appends (W.contents out.old) (W.contents out.new) (clocks_line n)) }
{
    let mut line = Line::new();
    writeln!(line, "C {n}")?;
    out.write_all(&line)
}
