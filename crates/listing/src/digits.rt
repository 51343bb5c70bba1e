// Digits, and the bits of a coordinate in hexadecimal, written into a lent buffer from a place on. The library's
// `write!` names the bytes that it writes for a `Vec`, on the heap, and for no lent slice.
ghost use Rattle.std.specs.Prelude.{◌≡◌, ◌+◌, ◌<◌, ◌≤◌, length};
ghost use Rattle.std.specs.Float.{binary32};
ghost use Rattle.std.specs.Float.Ieee.{to_bits};
ghost use Rattle.geom.specs.Listing.{digit, hexadecimal as hexadecimal_of};
ghost use Rattle.listing.specs.Text.{Put};

// The pattern that is printed for a NaN, of which there is only one.
const NAN: usize = 0x7FC0_0000;

// A digit below 16: 0 to 9, then A to F.
pub(crate) fn glyph(value: usize) -> u8
    requires { value < 16 }
    ensures { result ≡ digit value }
{
    if value < 10 {
        return b'0' + value as u8;
    }
    b'A' - 10 + value as u8
}

// 8 hexadecimal digits, in capitals.
pub fn hexadecimal(bits: usize, out: &mut [u8], at: usize) -> usize
    requires { at + 8 ≤ length out.old }
    ensures { Put at (hexadecimal_of bits) out.old out.new result }
{
    for i in 0..8 {
        out[at + i] = glyph((bits >> (28 - 4 * i)) % 16);
    }
    at + 8
}

// The bits of a coordinate. The pattern of a NaN can't be read, so a NaN is told by its not being equal to itself.
pub fn pattern(c: f32) -> usize
    ensures { result ≡ to_bits binary32 c }
{
    if c != c {
        return NAN;
    }
    f32::to_bits(c) as usize
}
