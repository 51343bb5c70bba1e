// The IEEE 754 square root of a binary32 number. It begins with a guess, made by arithmetic in binary64, and of the guess nothing is
// proved but that it is safe to make. Whole numbers decide: a guess is taken where the two squares next to it say that it is the root,
// and elsewhere the root is found by halving. So a wrong guess costs time, and never the answer.
ghost use Rattle.std.specs.Prelude.{◌≡◌, ◌+◌, ◌*◌, ◌/◌, ◌^◌, ◌<◌, ◌≤◌, true, from_bits, to_bits};
ghost use Rattle.std.specs.Float.{nan, binary32};
ghost use Rattle.numbers.specs.Root as Root;

// The weights of a pattern's sign and of its exponent's field, and the pattern of the infinity.
const SIGN: u32 = 0x8000_0000;

const FIELD: u32 = 0x0080_0000;

const INFINITY: u32 = 0x7F80_0000;

// The square root. A zero, the infinity and a NaN are their own, and a number below zero has none. A NaN's pattern can't be
// read, so that is asked first. Most numbers are above zero and below the infinity, so one comparison tells that of a pattern
// before any other is made.
pub fn root(x: f32) -> f32
    ensures { result ≡ Root.root x }
{
    if x.is_nan() {
        return x;
    }
    let bits = x.to_bits();
    if (0 < bits) & (bits < INFINITY) {
        return f32::from_bits(root_bits(bits, x as f64));
    }
    if SIGN < bits {
        return not_a_number();
    }
    x
}

// A NaN's pattern can't be made of bits either: it is what 0 / 0 gives.
fn not_a_number() -> f32
    ensures { result ≡ nan }
{
    0.0 / 0.0
}

// The pattern of the root of a number above 0 and below the infinity. `wide` is the same number in binary64, for the guess. A subnormal
// number has no leading digit, and its field counts as a field of 1; no guess is made at its root.
fn root_bits(bits: u32, wide: f64) -> u32
    requires { (0 < bits) × (bits < 0x7F80_0000) }
    ensures { (result ≡ to_bits binary32 (Root.root (from_bits binary32 bits))) × (result < 0x7F80_0000) }
{
    if bits < FIELD {
        return root_pattern(bits, 149, 0);
    }
    root_pattern(
        FIELD + bits % FIELD,
        bits / FIELD + 148,
        near_pattern(bits, wide),
    )
}

// The pattern of the root of digits * 2 ^ weight / 2 ^ 298; `near` is a guess at it. The radicand is made as long as 25 digits of the
// root take, 49 or 50 digits, by an even power of two less: what is left of the weight is 2 * half. The 25th digit rounds the root. It
// is never a tie, since the radicand is even and an odd root's square is not.
fn root_pattern(digits: u32, weight: u32, near: u64) -> u32
    requires { (0 < digits) × (digits < 2 ^ 24) × (149 ≤ weight) × (weight ≤ 402) }
    ensures { (result ≡ to_bits binary32 (Root.rounded_root binary32 (digits * 2 ^ weight) (4 ^ 149))) × (result < 0x7F80_0000) }
{
    let half = (weight - digits.leading_zeros() - 17) / 2;
    let radicand = (digits as u64) << (weight - 2 * half);
    let least = (half + 1) * FIELD;
    let rounded = rounded_root(radicand, near.wrapping_sub(least as u64));
    least + (rounded as u32)
}

// The square root of n without its last digit, by which it is rounded: the guess where that is right, and else what halving finds.
fn rounded_root(n: u64, near: u64) -> u64
    requires { n < 2 ^ 50 }
    ensures { (result ≡ (Root.whole_root n + 1) / 2) × (result ≤ 2 ^ 24) }
{
    if is_rounded(n, near) {
        return near;
    }
    (whole_root(n) + 1) / 2
}

// Whether a guess is the square root of n without its last digit, rounded: the root lies from 2 * near - 1 on, and below 2 * near + 1,
// whose square is 8 * near more. A guess of 0 or above 2 ^ 24 is refused: it is right for no n from 1 on and below 2 ^ 50.
fn is_rounded(n: u64, near: u64) -> bool
    ensures { result ≡ true → (Root.whole_root n + 1) / 2 ≡ near }
{
    if 0x0100_0000 < near {
        return false;
    }
    if near == 0 {
        return false;
    }
    let below = (2 * near - 1) * (2 * near - 1);
    (below <= n) & (n < below + 8 * near)
}

// A guess at the pattern of the root of `wide`, whose binary32 pattern is `bits`. It is wrong at 2,014 of the 2 ^ 24 numbers from 1 up to
// 4, and then one off (measured).
//
// A pattern grows nearly as its number's logarithm does, so the pattern of 1 / root(wide) is about 0x5FE6_EB50_C7B5_37A9 less half of
// wide's own. That half is bits * 0x1000_0000, and half of the difference of the two formats' biases, 448 * 2 ^ 52, which the constant
// below has taken off already. So y is within 3.5 % of 1 / root(wide), and a step of Newton's, y * (1.5 - wide * y * y / 2), leaves
// 3 / 2 of the error's square: 0.18 %, 5e-6, 4e-11. The steps are taken on s = wide * y and on h = y / 2 side by side, so that the
// factor of a step is 1.5 - s * h, and each waits for three operations and not for four.
//
// The last s comes near the root in binary64; that it is no NaN is not proved, so it is asked. Its pattern has 29 digits more than a
// binary32 pattern, of which 28 are cut off and the one before them rounds: (pattern / 2 ^ 28 + 1) / 2. Its exponent is 896 more by the
// biases, which is 896 * 2 ^ 23 or 0x1_C000_0000 in the pattern.
fn near_pattern(bits: u32, wide: f64) -> u64 {
    let y = f64::from_bits(0x43E6_EB50_C7B5_37A9 - (bits as u64) * 0x1000_0000);
    let s0 = wide * y;
    let h0 = 0.5 * y;
    let r0 = 1.5 - s0 * h0;
    let s1 = s0 * r0;
    let h1 = h0 * r0;
    let r1 = 1.5 - s1 * h1;
    let s2 = s1 * r1;
    let h2 = h1 * r1;
    let guess = s2 * (1.5 - s2 * h2);
    if guess.is_nan() {
        return 0;
    }
    ((guess.to_bits() / 0x1000_0000 + 1) / 2).wrapping_sub(0x1_C000_0000)
}

// The whole part of the square root of n, by halving: it lies from low on, and below high. The library's `isqrt` halves 32 times, and n is
// so small that 25 are enough: with it the root of a subnormal number takes 1.5 times as long.
fn whole_root(n: u64) -> u64
    requires { n < 2 ^ 50 }
    ensures { (result ≡ Root.whole_root n) × (result < 2 ^ 25) }
{
    let mut low: u64 = 0;
    let mut high: u64 = 0x0200_0000;
    while 1 < high - low {
        let middle = (low + high) / 2;
        if middle * middle <= n {
            low = middle;
        } else {
            high = middle;
        }
    }
    low
}
