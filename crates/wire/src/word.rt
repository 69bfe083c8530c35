// An event as one number, its word: what the loops over a list go by, so that no event is stored to be taken apart again.
ghost use Rattle.std.specs.Prelude.{◌≡◌, ◌+◌, ◌/◌, ◌%◌, ◌^◌, ◌≤◌, ◌==◌, length};
ghost use Rattle.wire.specs.Next.{most_bytes};
ghost use Rattle.wire.specs.Word.{event_in, word_of, bits_of, Tells};

use crate::field::four_bytes;
use crate::next::{
    CLOCKS, CLOCKS_BITS, KIND_BITS, LAST_PIN, LEVEL_BITS, PIN, PIN_BITS, PORT_ACKNOWLEDGE, READ,
    REGISTER_BITS, TIMER_ACKNOWLEDGE, VALUE_BITS, WRITE, size_of,
};
use event::Event;
use std::num::wrapping_sub_usize;

// The end's kind, which says that no event stands there.
pub const END: u32 = 7;

// A word's bits, those of the event on top.
const WORD_BITS: usize = 32;

// The head of an event, its first bits: the kind, the register or the pin, the value or the level. Clocks alone reach further.
const HEAD_BITS: usize = 16;

// How many bits of the word follow the kind, the head and the clocks.
pub const AFTER_KIND: u32 = (WORD_BITS - KIND_BITS) as u32;

const AFTER_HEAD: u32 = (WORD_BITS - HEAD_BITS) as u32;

const AFTER_CLOCKS: u32 = AFTER_KIND - CLOCKS_BITS as u32;

// How many bits of the head follow the register or the pin, and the level.
const AFTER_REGISTER: u32 = VALUE_BITS as u32;

const AFTER_LEVEL: u32 = (HEAD_BITS - KIND_BITS - PIN_BITS - LEVEL_BITS) as u32;

// A field's bits, all set.
const REGISTER_MASK: u32 = (1 << REGISTER_BITS) - 1;

const VALUE_MASK: u32 = (1 << VALUE_BITS) - 1;

const LEVEL_MASK: u32 = (1 << LEVEL_BITS) - 1;

const CLOCKS_MASK: u32 = (1 << CLOCKS_BITS) - 1;

// Pins 28 to 31 are those whose bits but the last two are all set.
const LAST_PIN_BITS: usize = 2;

const AFTER_NO_PIN: u32 = AFTER_KIND - (PIN_BITS - LAST_PIN_BITS) as u32;

const NO_PIN: u32 = ((PIN << PIN_BITS) + LAST_PIN as u32 + 1) >> LAST_PIN_BITS;

// The word that says that no event stands there. A word and no Option: `word_of` has it so, and with it the public contract of `word_at`.
const NONE: u32 = END << AFTER_KIND;

// The bits from bit at, near the end of a list, with zeros behind it. Its bits' number may wrap, but not how many remain: they are 24 at most.
fn last_bits(list: &[u8], at: usize) -> u32
    requires { length list.now ≤ at / 2 ^ 3 + 3 }
    ensures { result ≡ bits_of list.now at }
{
    let i = at >> 3;
    if list.len() <= i {
        return NONE;
    }
    let word = four_bytes(list, i) << (at & 7);
    if wrapping_sub_usize(list.len() << 3, at) < size_of(word >> AFTER_KIND) {
        return NONE;
    }
    word
}

// The bits from bit at. Where the four bytes from its first are there, so are all the bits that an event needs.
pub(crate) fn bits_at(list: &[u8], at: usize) -> u32
    ensures { result ≡ bits_of list.now at }
{
    let i = at >> 3;
    if i + 3 < list.len() {
        let bytes = u32::from_be_bytes([list[i], list[i + 1], list[i + 2], list[i + 3]]);
        return bytes << (at & 7);
    }
    last_bits(list, at)
}

// The word at bit at, of any list. Where the list is not too long, it tells the event that stands there, or that none does.
pub fn word_at(list: &[u8], at: usize) -> u32
    ensures word { result ≡ word_of list.now at }
    ensures tells { length list.now ≤ most_bytes → Tells list.now at result }
{
    let word = bits_at(list, at);
    if word >> AFTER_NO_PIN == NO_PIN {
        return NONE;
    }
    word
}

// The register of a write or a read, or the pin of a pin event.
fn register_or_pin(head: u32) -> u8
    ensures { result ≡ head / 2 ^ 8 % 2 ^ 5 }
{
    ((head >> AFTER_REGISTER) & REGISTER_MASK) as u8
}

// The value of a write.
fn value_of(head: u32) -> u8
    ensures { result ≡ head % 2 ^ 8 }
{
    (head & VALUE_MASK) as u8
}

// The level of a pin.
fn level_of(head: u32) -> bool
    ensures { result ≡ (head / 2 ^ 7 % 2 == 1) }
{
    (head >> AFTER_LEVEL) & LEVEL_MASK == 1
}

// The event of a word.
#[tactic(auto, unfolding(crate::specs::Word::event_in))]
pub fn event_of(word: u32) -> Event
    ensures { result ≡ event_in word }
{
    let head = word >> AFTER_HEAD;
    let kind = word >> AFTER_KIND;
    match kind {
        WRITE => Event::Write(register_or_pin(head), value_of(head)),
        READ => Event::Read(register_or_pin(head)),
        PORT_ACKNOWLEDGE => Event::PortAcknowledge,
        TIMER_ACKNOWLEDGE => Event::TimerAcknowledge,
        PIN => Event::Pin(register_or_pin(head), level_of(head)),
        CLOCKS => Event::Clocks(((word >> AFTER_CLOCKS) & CLOCKS_MASK) + 1),
        _ => Event::Reset,
    }
}
