// The rows of the lists of a file, judged. Each function ends with the first refusal, or has passed what it names.
ghost use Rattle.std.specs.Prelude.{ℕ, ◌+◌, ◌*◌, ◌≤◌, length, get_or, Ok};
ghost use Rattle.geom.specs.File as File;
ghost use Rattle.geom.specs.Refinement.{LIMIT};
ghost use Rattle.fields.specs.Fields.{mark_field, flags_field, word_at, coordinate_at, vertex_at, vertices_at, parity_at, numbers_at, parities_at, wide, element_at, elements_at, Passes, Each, Counts, Strings, Winds, WindAll};

use crate::field::{byte_at, float_of, word_at};
use geom::refusal::Refusal;
use judge::counts::LIMIT;
use judge::words::coordinate_holds;

// A tag or k: any word.
pub fn carried(file: &[u8], at: usize) -> Result<(), Refusal>
    ensures { Passes result file.now at (at + 4) (word_at file.now at) File.word }
{
    word_at(file, at)?;
    Ok(())
}

// 6: finite, from -1,024 to 1,024.
#[tactic(auto, unfolding(geom::specs::File::coordinate, geom::specs::File::judged))]
pub fn coordinate(file: &[u8], at: usize) -> Result<(), Refusal>
    ensures { Passes result file.now at (at + 4) (coordinate_at file.now at) File.coordinate }
{
    let pattern = word_at(file, at)?;
    if coordinate_holds(float_of(pattern)) {
        return Ok(());
    }
    Err(Refusal::Coordinate)
}

// 7: a vertex number below the count.
#[tactic(auto, unfolding(geom::specs::File::number, geom::specs::File::judged, geom::specs::Refusals::good_number))]
pub fn number(file: &[u8], at: usize, count: usize) -> Result<(), Refusal>
    ensures { Passes result file.now at (at + 4) (word_at file.now at) (File.number count) }
{
    let vertex = word_at(file, at)?;
    if (vertex as usize) < count {
        return Ok(());
    }
    Err(Refusal::Number)
}

// 5: a byte of at most a number.
#[tactic(auto, unfolding(crate::specs::Fields::mark_field, geom::specs::File::judged))]
fn mark(file: &[u8], at: usize, most: u32) -> Result<(), Refusal>
    ensures { Passes result file.now at (at + 1) (get_or file.now at 0) (mark_field most) }
{
    let mark = byte_at(file, at)?;
    if most < mark {
        return Err(Refusal::Mark);
    }
    Ok(())
}

// 5: a parity byte of at most 1.
#[tactic(auto, unfolding(geom::specs::File::parity, geom::specs::File::judged, geom::specs::Refusals::good_parity, crate::specs::Fields::mark_field))]
pub fn parity(file: &[u8], at: usize) -> Result<(), Refusal>
    ensures { Passes result file.now at (at + 1) (parity_at file.now at) File.parity }
{
    mark(file, at, 1)
}

// 5: a flag byte of at most 15.
#[tactic(auto, unfolding(crate::specs::Fields::flags_field, crate::specs::Fields::mark_field, geom::specs::Refusals::good_flags))]
pub fn flags(file: &[u8], at: usize) -> Result<(), Refusal>
    ensures { Passes result file.now at (at + 1) (get_or file.now at 0) flags_field }
{
    mark(file, at, 15)
}

// 10: a count against the lent cells and the limit, before its entries.
#[tactic(auto, unfolding(geom::specs::File::counted, geom::specs::File::judged))]
pub fn counted(file: &[u8], at: usize, lent: usize) -> Result<u32, Refusal>
    ensures { Counts result file.now at lent }
{
    let n = word_at(file, at)?;
    if lent.min(LIMIT) < n as usize {
        return Err(Refusal::Room);
    }
    Ok(n)
}

// Vertex: four 4-byte bit patterns, flag byte, tag, k.
#[tactic(auto, unfolding(geom::specs::File::vertex, crate::specs::Fields::vertex_at, crate::specs::Fields::flags_field))]
pub fn vertex(file: &[u8], at: usize) -> Result<(), Refusal>
    ensures { Passes result file.now at (at + 25) (vertex_at file.now at) File.vertex }
{
    coordinate(file, at)?;
    coordinate(file, at + 4)?;
    coordinate(file, at + 8)?;
    coordinate(file, at + 12)?;
    flags(file, at + 16)?;
    carried(file, at + 17)?;
    carried(file, at + 21)
}

// Rows of one width, one after the other, each judged at its place.
pub fn several<F: Fn(usize) -> Result<(), Refusal>>(
    file: &[u8],
    at: usize,
    wide: usize,
    n: usize,
    row: F,
) -> Result<(), Refusal>
    requires begins { at ≤ length file.now }
    requires judges { (p : ℕ) → p ≤ length file.now → F.pre row p }
    requires stands { (p : ℕ) → p ≤ length file.now → F.post row p (Ok tt) → p + wide ≤ length file.now }
    ensures { Each (F.post row) (length file.now) result at wide n }
{
    for i in 0..n {
        row(at + wide * i)?;
    }
    Ok(())
}

// Vertices, one after the other.
pub fn vertices(file: &[u8], at: usize, n: usize) -> Result<(), Refusal>
    requires { at ≤ length file.now }
    ensures { Passes result file.now at (at + 25 * n) (vertices_at file.now at n) (File.several n File.vertex) }
{
    several(file, at, 25, n, |place| vertex(file, place))
}

// Vertex numbers, one after the other: points, an element's corners, a curve's vertices.
pub fn numbers(file: &[u8], at: usize, n: usize, count: usize) -> Result<(), Refusal>
    requires { at ≤ length file.now }
    ensures { Passes result file.now at (at + 4 * n) (numbers_at file.now at n) (File.several n (File.number count)) }
{
    several(file, at, 4, n, |place| number(file, place, count))
}

// Parities, one after the other: those of a curve's steps.
pub fn parities(file: &[u8], at: usize, n: usize) -> Result<(), Refusal>
    requires { at ≤ length file.now }
    ensures { Passes result file.now at (at + n) (parities_at file.now at n) (File.several n File.parity) }
{
    several(file, at, 1, n, |place| parity(file, place))
}

// Element: vertex numbers, parity byte.
#[tactic(auto, unfolding(geom::specs::File::element, crate::specs::Fields::element_at))]
pub fn element(file: &[u8], at: usize, corners: usize, count: usize) -> Result<(), Refusal>
    requires { at ≤ length file.now }
    ensures { Passes result file.now at (at + wide corners) (element_at corners file.now at) (File.element count corners) }
{
    numbers(file, at, corners, count)?;
    parity(file, at + 4 * corners)
}

// Elements, one after the other: lines, areas or volumes.
pub fn elements(
    file: &[u8],
    at: usize,
    n: usize,
    corners: usize,
    count: usize,
) -> Result<(), Refusal>
    requires { (at ≤ length file.now) × (corners ≤ 8) }
    ensures { Passes result file.now at (at + wide corners * n) (elements_at corners file.now at n) (File.several n (File.element count corners)) }
{
    several(
        file,
        at,
        4 * corners + 1,
        n,
        |place| element(file, place, corners, count),
    )
}

// A curve's vertex count: 0 is 8; else 10 is judged, on the total over all curves so far, which may be more than 32 bits.
#[tactic(auto, unfolding(geom::specs::File::curve_count, geom::specs::File::judged))]
pub fn curve_count(file: &[u8], at: usize, lent: usize, before: usize) -> Result<u32, Refusal>
    requires { before ≤ LIMIT }
    ensures { Strings result file.now at lent before }
{
    let n = word_at(file, at)?;
    if n == 0 {
        return Err(Refusal::Curve);
    }
    let total = before + n as usize;
    if lent.min(LIMIT) < total {
        return Err(Refusal::Room);
    }
    Ok(n)
}

// Curve: tag, vertex count, vertices, one parity fewer. The value is the vertex count.
#[tactic(auto, unfolding(geom::specs::File::curve, crate::specs::Fields::curve_at))]
pub fn curve(
    file: &[u8],
    at: usize,
    count: usize,
    lent: usize,
    before: usize,
) -> Result<u32, Refusal>
    requires { before ≤ LIMIT }
    ensures { Winds result file.now at count lent before }
{
    carried(file, at)?;
    let some = curve_count(file, at + 4, lent, before)?;
    let n = some as usize;
    numbers(file, at + 8, n, count)?;
    parities(file, at + 8 + 4 * n, n - 1)?;
    Ok(some)
}

// The curves, one after the other. The value is the number of their vertices.
pub fn curves(file: &[u8], at: usize, n: usize, count: usize, lent: usize) -> Result<u32, Refusal>
    requires { at ≤ length file.now }
    ensures { WindAll result file.now at n count lent }
{
    let mut from = at;
    let mut total: u32 = 0;
    for i in 0..n {
        let some = curve(file, from, count, lent, total as usize)?;
        total += some;
        from += 5 * (some as usize) + 7;
    }
    Ok(total)
}
