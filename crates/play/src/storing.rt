// What is answered goes into what is lent, as far as there is room: bytes and a place, as C lends them (`clocks` of its crate says why no struct).
ghost use Rattle.std.specs.Prelude.{◌≡◌, ◌≤◌, set};
ghost use Rattle.std.proofs.lemmas.List.Edits.{sets};
ghost use Rattle.wire.specs.Next.{most_bits};
ghost use Rattle.device.specs.Events.{answer_bytes};

// Stores a byte at a place, if there is room.
fn put_byte(bytes: &mut [u8], at: usize, byte: u8)
    ensures { bytes.new ≡ set bytes.old at byte }
{
    if at < bytes.len() {
        bytes[at] = byte;
    }
}

// Stores the two bytes of an answer from a place on: 1 and what the part gives, or 0 and 0 where it does not respond.
pub(crate) fn answer(bytes: &mut [u8], at: usize, given: Option<u8>)
    requires { at ≤ most_bits }
    ensures { bytes.new ≡ sets bytes.old at (answer_bytes given) }
{
    let (responds, byte) = match given {
        Some(byte) => (1, byte),
        None => (0, 0),
    };
    put_byte(bytes, at, responds);
    put_byte(bytes, at + 1, byte);
}
