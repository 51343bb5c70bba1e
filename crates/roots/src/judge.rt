// Whether a root is right, by what a square root means. It is held against exact whole numbers, and never against another root.
ghost use Rattle.std.specs.Prelude.{◌≡◌, ◌%◌, ◌^◌, ◌<◌, ◌≤◌};
ghost use Rattle.roots.specs.Exact as Exact;

use numbers::root::root;

// The weights of a pattern's sign and of its exponent's field, and the pattern of the infinity.
pub const SIGN: u32 = 0x8000_0000;

pub const FIELD: u32 = 0x0080_0000;

pub const INFINITY: u32 = 0x7F80_0000;

// Which kind of number a pattern stands for, and whether its root is right. A NaN can't be made of its pattern.
#[derive(Clone, Copy)]
pub enum Verdict {
    Above(bool),
    Below(bool),
    Own(bool),
    LeftOut,
}

// The pattern of the root under test, of the number with this pattern: none where the root is not a number.
pub fn root_at(pattern: u32) -> Option<u32>
    requires { pattern % 2 ^ 31 ≤ 0x7F80_0000 }
{
    let r = root(f32::from_bits(pattern));
    if r != r {
        return None;
    }
    Some(f32::to_bits(r))
}

// Tries one pattern, each kind by its own rule: zeros and the infinity are their own roots, and below zero there is no root.
pub fn tried(pattern: u32) -> Verdict {
    let size = pattern % SIGN;
    if INFINITY < size {
        return Verdict::LeftOut;
    }
    if size == 0 {
        return Verdict::Own(root_at(pattern) == Some(pattern));
    }
    if SIGN <= pattern {
        return Verdict::Below(root_at(pattern).is_none());
    }
    if pattern == INFINITY {
        return Verdict::Own(root_at(pattern) == Some(pattern));
    }
    Verdict::Above(is_nearest(pattern))
}

// A number above 0 and below the infinity has a root that is normal and finite, and no binary32 number lies nearer to the exact one.
fn is_nearest(pattern: u32) -> bool
    requires { (0 < pattern) × (pattern < 0x7F80_0000) }
{
    let Some(bits) = root_at(pattern) else {
        return false;
    };
    FIELD <= bits && bits < INFINITY && judge(pattern, bits)
}

// Whether the exact root of the number of pattern x lies strictly between the midpoints of pattern r's number and its neighbours.
fn judge(x: u32, r: u32) -> bool
    requires { Exact.Patterns x r }
    ensures { result ≡ Exact.nearest x r }
{
    let up = weight(x) + 150;
    let down = 2 * weight(r);
    if up < down {
        return false;
    }
    let shift = up - down;
    if 64 <= shift {
        return false;
    }
    let low = lower(digits(r));
    let high = 4 * digits(r) + 2;
    lies_between(low * low, 16 * digits(x), shift, high * high)
}

// Whether x * 2 ^ shift lies strictly between low and high.
fn lies_between(low: u64, x: u64, shift: u32, high: u64) -> bool
    requires { (shift < 64) × (0 < high) }
    ensures { result ≡ Exact.between low (Exact.shifted x shift) high }
{
    if x <= low >> shift {
        return false;
    }
    x <= (high - 1) >> shift
}

// The number of a pattern above 0 and below the infinity is digits * 2 ^ weight / 2 ^ 150. A subnormal one has no leading digit, and
// its field counts as a field of 1.
fn digits(pattern: u32) -> u64
    ensures { (result ≡ Exact.digits pattern) × (result < 2 ^ 24) }
{
    if pattern < FIELD {
        return pattern as u64;
    }
    (FIELD + pattern % FIELD) as u64
}

fn weight(pattern: u32) -> u32
    ensures { (result ≡ Exact.weight pattern) × (result < 512) }
{
    if pattern < FIELD {
        return 1;
    }
    pattern / FIELD
}

// In quarters of a number's last digit, the midpoint to its lower neighbour. That of a power of two is half as far as the upper one.
fn lower(digits: u64) -> u64
    requires { (2 ^ 23 ≤ digits) × (digits < 2 ^ 24) }
    ensures { (result ≡ Exact.lower digits) × (result < 2 ^ 26) }
{
    if digits == 0x0080_0000 {
        return 4 * digits - 1;
    }
    4 * digits - 2
}
