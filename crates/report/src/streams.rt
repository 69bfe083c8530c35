// What the programs do with the system's streams: a list is read from standard input, and a line says why it can't be.
ghost use Rattle.std.specs.Prelude.{◌≡◌, ◌≤◌, IfOk, IfSome, OnOk, take};
ghost use Rattle.std.specs.Io.KnownBytes.{Appends};
ghost use Rattle.arrayvec.specs.ArrayVec.{array_vec_len};
ghost use Rattle.report.specs.Streams.{most_read, words_of, unread_line, forgiven};

use arrayvec::ArrayVec;
use std::io;
use std::io::{ErrorKind, Read, Write};

// One byte more than a list may have, so that a longer one is refused.
pub const MOST_READ: usize = 16385;

// The bytes of standard input, as many as tell whether a list is too long, in place of what the lent vector held: no memory is asked for.
pub fn read_list<R: Read + Drop>(input: R, list: &mut ArrayVec<u8, MOST_READ>) -> io::Result<()>
    ensures ok { IfOk result (λ r. r ≡ tt) }
    ensures most { OnOk result (array_vec_len list.new ≤ most_read) }
    ensures bytes { OnOk result (IfSome (R.remaining input) (λ all. list.new.items ≡ take most_read all)) }
{
    list.clear();
    io::copy(&mut input.take(MOST_READ as u64), list)?;
    list.truncate(MOST_READ);
    Ok(())
}

// The words of the system alone: its code behind them is left out.
#[tactic(auto, using(crate::proofs::Words::all_words, crate::proofs::Words::words_before))]
fn words(reason: &str) -> &str
    ensures { result.now ≡ words_of reason.now }
{
    match reason.split_once(" (os error ") {
        Some((words, _)) => words,
        None => reason,
    }
}

// Why standard input can't be read.
#[tactic(auto, unfolding(crate::specs::Streams::unread_line))]
pub fn unread<W: Write>(out: &mut W, program: &str, reason: &str) -> io::Result<()>
    ensures ok { IfOk result (λ r. r ≡ tt) }
    ensures written { OnOk result (Appends (W.contents out.old) (W.contents out.new) (unread_line program.now reason.now)) }
{
    writeln!(out, "{program}: standard input: {}", words(reason))
}

// What came of printing: a reader of the lines that has gone away is no fault.
#[tactic(auto, unfolding(crate::specs::Streams::forgiven), using(crate::proofs::Failures::other))]
pub fn printed(written: io::Result<()>) -> io::Result<()>
    ensures { result ≡ forgiven written }
{
    match written {
        Err(error) if error.kind() == ErrorKind::BrokenPipe => Ok(()),
        written => written,
    }
}
