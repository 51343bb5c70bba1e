// Lists sit on two benches, and the caller is handed the entries on the bench that the last whole pass wrote. Each function hands back a part of one
// list's two slices, of words or of numbers, and never more than there is; or says as numbers where it stands.
#![tactic(auto)]

ghost use Rattle.std.specs.Prelude.{◌≡◌, ◌%◌, eqb, take};
ghost use Rattle.geom.specs.Refusals.{side as side_of};
ghost use Rattle.left.specs.Place.{Placed};

// Whether the last of so many passes wrote the first bench: for an even count; for an odd one the second.
fn wrote_first(passes: u8) -> bool
    ensures { result ≡ eqb (passes % 2) 0 }
{
    passes % 2 == 0
}

// So many items from the start, or all there are.
fn at_most<T>(items: &[T], count: usize) -> &[T]
    ensures { result.now ≡ take count items.now }
{
    &items[..count.min(items.len())]
}

// The words of the entries of a list, or the numbers of the vertices' positions.
pub fn left<'a, T>(first: &'a [T], second: &'a [T], passes: u8, words: usize) -> &'a [T]
    ensures { result.now ≡ take words (side_of passes first.now second.now) }
{
    if wrote_first(passes) {
        return at_most(first, words);
    }
    at_most(second, words)
}

// Where `left` finds them, for a caller who can be handed no slice: the bench, 0 the first and 1 the second, and how many words.
pub fn place<T>(first: &[T], second: &[T], passes: u8, words: usize, answer: &mut [usize; 2])
    ensures { Placed passes words first.now second.now answer.new }
{
    *answer = [
        (passes % 2) as usize,
        left(first, second, passes, words).len(),
    ];
}
