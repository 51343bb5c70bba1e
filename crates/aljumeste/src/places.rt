// What a refinement leaves of a list, as other languages link it. An export can return no slice, so it
// says where the words stand.
ghost use Rattle.left.specs.Place.{Placed};

use left::place;

// Where the words that are left of a list stand, of two slices of any lengths: `answer` is left with the bench, 0 the first and 1 the second, and
// how many words of it count, `words` or all there are.
#[unsafe(no_mangle)]
pub extern "C" fn aljumeste_left<'a>(
    first: &'a [u32],
    second: &'a [u32],
    passes: u8,
    words: usize,
    answer: &mut [usize; 2],
)
    ensures { Placed passes words first.now second.now answer.new }
{
    place(first, second, passes, words, answer);
}

// The same of the vertices' positions.
#[unsafe(no_mangle)]
pub extern "C" fn aljumeste_left_positions<'a>(
    first: &'a [f32],
    second: &'a [f32],
    passes: u8,
    numbers: usize,
    answer: &mut [usize; 2],
)
    ensures { Placed passes numbers first.now second.now answer.new }
{
    place(first, second, passes, numbers, answer);
}
