// A word of a lent slice: what every reader of rows starts from. The start of a slice, copied.
ghost use Rattle.std.specs.Prelude.{◌≡◌, ◌≤◌, ◌<◌, length, get_or, take};
ghost use Rattle.numbers.specs.Binary32 as Binary32;
ghost use Rattle.geom.specs.Memory.{over};

// A word, as wide as a count.
pub fn word(words: &[u32], i: usize) -> usize
    requires { i < length words.now }
    ensures { result ≡ get_or words.now i 0 }
{
    words[i] as usize
}

// A coordinate.
pub fn number(words: &[f32], i: usize) -> f32
    requires { i < length words.now }
    ensures { result ≡ get_or words.now i Binary32.zero }
{
    words[i]
}

// The first items are copied over the start of another slice. Item by item: with the library's copying an archive for C asks for `memmove`.
pub fn copy<T: Copy>(from: &[T], to: &mut [T], count: usize)
    requires count_in_bounds { count ≤ length from.now }
    requires count_in_bounds_2 { count ≤ length to.old }
    ensures { to.new ≡ over to.old (take count from.now) }
{
    for i in 0..count {
        to[i] = from[i];
    }
}
