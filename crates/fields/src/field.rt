// A field of a file: a byte, or 4 bytes big-endian.
ghost use Rattle.std.specs.Prelude.{◌≡◌, ◌+◌, ◌≤◌, length, get_or};
ghost use Rattle.std.specs.Float.{binary32};
ghost use Rattle.std.specs.Float.Ieee.{of_bits};
ghost use Rattle.geom.specs.File as File;
ghost use Rattle.fields.specs.Fields.{word_at, Gives};

use geom::refusal::Refusal;

// The weight of a pattern's sign, and the pattern of the infinity.
const SIGN: u32 = 0x8000_0000;

const INFINITY: u32 = 0x7F80_0000;

// The number that 4 bytes are, big-endian.
#[tactic(auto, unfolding(crate::specs::Fields::word_at))]
pub fn big_endian(src: &[u8], at: usize) -> u32
    requires { at + 4 ≤ length src.now }
    ensures { result ≡ word_at src.now at }
{
    u32::from_be_bytes([src[at], src[at + 1], src[at + 2], src[at + 3]])
}

// The number with a pattern. A NaN can't be made of its pattern, and is made as zero over zero.
pub fn float_of(pattern: u32) -> f32
    ensures { result ≡ of_bits binary32 pattern }
{
    if INFINITY < pattern % SIGN {
        let zero: f32 = 0.0;
        return zero / zero;
    }
    f32::from_bits(pattern)
}

// A byte; 3 where the file ends early.
#[tactic(auto, using(crate::proofs::Reading::byte_reads, crate::proofs::Reading::byte_ends))]
pub fn byte_at(src: &[u8], at: usize) -> Result<u32, Refusal>
    ensures { Gives result src.now at (at + 1) (get_or src.now at 0) File.byte }
{
    match src.get(at) {
        Some(&byte) => Ok(byte as u32),
        None => Err(Refusal::Short),
    }
}

// 4 bytes; 3 where the file ends early.
#[tactic(auto, using(crate::proofs::Reading::word_reads, crate::proofs::Reading::word_ends))]
pub fn word_at(src: &[u8], at: usize) -> Result<u32, Refusal>
    ensures { Gives result src.now at (at + 4) (word_at src.now at) File.word }
{
    if src.len().saturating_sub(at) < 4 {
        return Err(Refusal::Short);
    }
    Ok(big_endian(src, at))
}
