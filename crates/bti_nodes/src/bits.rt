ghost use Rattle.std.specs.Prelude.{◌≡◌, ◌<◌, ◌≤◌, ◌^◌, ◌+◌, ◌-◌, ◌*◌, ◌/◌, length};
ghost use Rattle.std.specs.Int.{div_ceil};
ghost use Rattle.bti_nodes.specs.Grammar.{bits_at, byte_at};

use byteorder::{BigEndian, ByteOrder};

/// The byte at a place, and 0 past the end.
pub fn byte_at(bytes: &[u8], i: usize) -> u8
    ensures { result ≡ byte_at bytes.now i }
{
    if i < bytes.len() { bytes[i] } else { 0 }
}

/// The number in the `width` bits from bit `at` on, the highest first.
#[tactic(auto, unfolding(crate::specs::Grammar::bits_at))]
pub fn bits_at(bytes: &[u8], at: usize, width: usize) -> u64
    requires some { 0 < width }
    requires place { at ≤ 2 ^ 20 }
    requires eight { div_ceil (at + width) 8 ≤ at / 8 + 8 }
    requires stands { div_ceil (at + width) 8 ≤ length bytes.now }
    ensures { result ≡ bits_at bytes.now at width }
{
    let first = at / 8;
    let end = (at + width).div_ceil(8);
    let (_, rest) = bytes.split_at(first);
    let number = BigEndian::read_uint(rest, end - first) >> (8 * end - (at + width));
    if width < 64 {
        number % (1 << width)
    } else {
        number
    }
}
