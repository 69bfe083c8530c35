// Fields of a list of bytes: most significant first, from the top bit of byte 0 (01, 'The event list').
ghost use Rattle.std.specs.Prelude.{◌≡◌, ◌+◌, ◌*◌, ◌^◌, ◌<◌, ◌≤◌, slice_index};
ghost use Rattle.wire.specs.Field.{field_at};

// Byte i of a list; past its end 0.
fn byte_at(list: &[u8], i: usize) -> u8
    ensures { result ≡ slice_index list.now i }
{
    list.get(i).copied().unwrap_or(0)
}

// The four bytes from byte i, a field of 32 bits.
pub(crate) fn four_bytes(list: &[u8], i: usize) -> u32
    requires { i + 3 < 2 ^ 64 }
    ensures { result ≡ field_at list.now (i * 8) 32 }
{
    u32::from_be_bytes([
        byte_at(list, i),
        byte_at(list, i + 1),
        byte_at(list, i + 2),
        byte_at(list, i + 3),
    ])
}

// The field of width bits from bit at. Up to 16 bits lie within three bytes, wherever they start.
pub(crate) fn field(list: &[u8], at: usize, width: usize) -> u32
    requires { width ≤ 16 }
    ensures { (result ≡ field_at list.now at width) × (result < 2 ^ width) }
{
    let three = four_bytes(list, at >> 3) >> 8;
    let mask = (1 << width) - 1;
    (three >> (24 - (at & 7) - width)) & mask
}
