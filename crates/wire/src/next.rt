// What stands at a bit of a list: an event, the end or a refusal (01, 'The event list' and its table of refusals).
ghost use Rattle.std.specs.Prelude.{◌≡◌, ◌+◌, ◌≤◌, length};
ghost use Rattle.wire.specs.Next.{kind_bits, clocks_bits, size_of, most_bytes, most_bits, close_at, next_at};
ghost use Rattle.wire.specs.Told.{told, refusal_told};
ghost use Rattle.wire.specs.Word.{kind_in, bits_of, no_pin};

use crate::field::field;
use crate::refusal::{Refusal, Refused};
use crate::word::{AFTER_KIND, END, bits_at, event_of};
use event::{Event, map};

// A list has at most so many bytes.
pub const MOST_BYTES: usize = 16384;

const MOST_BITS: usize = MOST_BYTES * 8;

// The kinds; 7 is end.
pub(crate) const WRITE: u32 = 0;

pub(crate) const READ: u32 = 1;

pub(crate) const PORT_ACKNOWLEDGE: u32 = 2;

pub(crate) const TIMER_ACKNOWLEDGE: u32 = 3;

pub(crate) const PIN: u32 = 4;

pub(crate) const CLOCKS: u32 = 5;

// How many bits a kind and each field take.
pub(crate) const KIND_BITS: usize = 3;

pub(crate) const REGISTER_BITS: usize = 5;

pub(crate) const VALUE_BITS: usize = 8;

pub(crate) const PIN_BITS: usize = 5;

pub(crate) const LEVEL_BITS: usize = 1;

pub(crate) const CLOCKS_BITS: usize = 16;

// The last pin, H4.
pub(crate) const LAST_PIN: u8 = map::H4;

// How many bits an event of this kind needs, those of the kind with them. The kind is a number: each has an answer (`size_of`), and an enum would
// name every kind twice.
#[tactic(auto, unfolding(crate::specs::Next::size_of))]
pub fn size_of(kind: u32) -> usize
    ensures { (result ≡ size_of kind) × (result ≤ kind_bits + clocks_bits) }
{
    match kind {
        WRITE => KIND_BITS + REGISTER_BITS + VALUE_BITS,
        READ => KIND_BITS + REGISTER_BITS,
        PIN => KIND_BITS + PIN_BITS + LEVEL_BITS,
        CLOCKS => KIND_BITS + CLOCKS_BITS,
        _ => KIND_BITS,
    }
}

// What follows the end mark: zero bits fill the last byte, and no byte follows.
#[tactic(auto, unfolding(crate::specs::Next::close_at))]
fn close(list: &[u8], end: usize) -> Result<(), Refused>
    requires { end ≤ most_bits }
    ensures { refusal_told result ≡ close_at list.now end }
{
    let bytes = end.div_ceil(8);
    if 0 < field(list, end, bytes * 8 - end) {
        return Err(Refusal::FillSet.at(end));
    }
    if bytes < list.len() {
        return Err(Refusal::ByteFollows.at(bytes * 8));
    }
    Ok(())
}

// Whether an event is of a pin that there is not.
fn no_pin(event: Event) -> bool
    ensures { result ≡ no_pin event }
{
    matches!(event, Event::Pin(pin, _) if LAST_PIN < pin)
}

// What stands at bit at where no event does: the end, or fewer bits than the next event needs.
fn end_at(list: &[u8], at: usize) -> Result<(), Refused>
    requires short { length list.now ≤ most_bytes }
    requires none { kind_in (bits_of list.now at) ≡ 7 }
    ensures { refusal_told result ≡ next_at list.now at }
{
    if MOST_BITS < at {
        return Err(Refusal::CutShort.at(at));
    }
    if list.len() * 8 < at + size_of(field(list, at, KIND_BITS)) {
        return Err(Refusal::CutShort.at(at));
    }
    close(list, at + KIND_BITS)
}

// What stands at bit at of a list: an event, with the first bit after it, or the end.
pub fn next_event(list: &[u8], at: usize) -> Result<Option<(Event, usize)>, Refused>
    ensures { told result ≡ next_at list.now at }
{
    if MOST_BYTES < list.len() {
        return Err(Refusal::TooLong.at(0));
    }
    let word = bits_at(list, at);
    let kind = word >> AFTER_KIND;
    if kind == END {
        end_at(list, at)?;
        return Ok(None);
    }
    let event = event_of(word);
    if no_pin(event) {
        return Err(Refusal::NoPin.at(at));
    }
    Ok(Some((event, at + size_of(kind))))
}
