// Curves, by the rule of the kind: between two neighbours comes their midpoint. A curve's row has its tag and its vertex count; the curves' vertices
// stand one curve after the other, each with the parity of the step to the next, and the last of a curve with 0.
ghost use Rattle.std.specs.Prelude.{◌≡◌, [], ◌∷◌, suc, ◌+◌, ◌*◌, ◌<◌, ◌≤◌, length, get_or};
ghost use Rattle.geom.specs.Book.{each};
ghost use Rattle.geom.specs.Kinds.{kind_of};
ghost use Rattle.geom.specs.Rules.{step_ends, curve as curve_by};
ghost use Rattle.geom.specs.Memory.{first_of, curve_row};
ghost use Rattle.geom.specs.Refusals.{curve_lengths};
ghost use Rattle.book.specs.Answers.{pairs_in, Kept, InUse, Asked};
ghost use Rattle.division.specs.Writing.{written};
ghost use Rattle.division.specs.Threads.{thread_to, Threaded, curve_at, curves_in, Spreads, Strung, Curved};

use crate::elements::middle;
use book::{Book, Full};
use geom::kind::Kind;
use geom::parity::Parity;

// Writes a row of two words.
fn put(new: &mut [u32], row: usize, first: u32, second: u32)
    requires { 2 * row + 1 < length new.old }
    ensures { new.new ≡ written new.old (2 * row) (first ∷ second ∷ []) }
{
    new[2 * row] = first;
    new[2 * row + 1] = second;
}

// The midpoint of [u,w] if the parity is even, of [w,u] if odd.
fn between(kind: Kind, book: &mut Book, parity: Parity, u: u32, w: u32) -> Result<u32, Full>
    requires { InUse book.old }
    ensures kept { Kept book.old book.new }
    ensures asked { Asked (kind_of kind) book.old (step_ends parity u w) book.new result }
{
    match parity {
        Parity::Even => middle(kind, book, u, w),
        Parity::Odd => middle(kind, book, w, u),
    }
}

// Writes the steps of a curve, each as its vertex and its midpoint with the step's parity.
fn thread(
    kind: Kind,
    old: &[u32],
    from: usize,
    steps: usize,
    new: &mut [u32],
    rows: usize,
    book: &mut Book,
) -> Result<(), Full>
    requires steps_in_bounds { 2 * (from + suc steps) ≤ length old.now }
    requires steps_in_bounds_2 { 2 * (rows + 2 * steps) ≤ length new.old }
    requires ready { InUse book.old }
    ensures kept { Kept book.old book.new }
    ensures threaded { Threaded from rows old.now (thread_to (kind_of kind) book.old.base old.now from (pairs_in book.old) steps) new.old new.new book.old book.new result }
{
    for i in 0..steps {
        let at = 2 * (from + i);
        let u = old[at];
        let parity = Parity::from(old[at + 1]);
        let w = old[at + 2];
        let vertex = between(kind, book, parity, u, w)?;
        let word = u32::from(parity);
        put(new, rows + 2 * i, u, word);
        put(new, rows + 2 * i + 1, vertex, word);
    }
    Ok(())
}

// Curve: between neighbours comes the midpoint; each parity is doubled; the tag stays. A curve of one vertex is unchanged.
fn curve(
    kind: Kind,
    old: &[u32],
    row: usize,
    old_vertices: &[u32],
    from: usize,
    new: &mut [u32],
    new_vertices: &mut [u32],
    rows: usize,
    cells: usize,
    book: &mut Book,
) -> Result<usize, Full>
    requires row_in_bounds { 2 * suc row ≤ length old.now }
    requires row_in_bounds_2 { 2 * (from + get_or old.now (2 * row + 1) 0) ≤ length old_vertices.now }
    requires row_in_bounds_3 { 2 * suc row ≤ length new.old }
    requires spread { Spreads cells rows new_vertices.old book.old }
    ensures kept { Kept book.old book.new }
    ensures strung { Strung cells row rows (curve_by (kind_of kind) book.old.base (pairs_in book.old) (curve_at old.now old_vertices.now from row)) new.old new.new new_vertices.old new_vertices.new book.old book.new result }
{
    let tag = old[2 * row];
    let count = old[2 * row + 1] as usize;
    if count == 0 {
        put(new, row, tag, 0);
        return Ok(rows);
    }
    let steps = count - 1;
    if cells - rows < 2 * steps + 1 {
        return Err(Full);
    }
    thread(kind, old_vertices, from, steps, new_vertices, rows, book)?;
    let last = rows + 2 * steps;
    put(new_vertices, last, old_vertices[2 * (from + steps)], 0);
    put(new, row, tag, (2 * steps + 1) as u32);
    Ok(last + 1)
}

// Curves in list order: as many rows as there were, and the vertices of each behind those of the one before.
pub fn curves(
    kind: Kind,
    old: &[u32],
    count: usize,
    old_vertices: &[u32],
    new: &mut [u32],
    new_vertices: &mut [u32],
    cells: usize,
    book: &mut Book,
) -> Result<usize, Full>
    requires count_in_bounds { 2 * count ≤ length old.now }
    requires count_in_bounds_2 { 2 * curve_lengths (first_of (curve_row old.now) count) ≤ length old_vertices.now }
    requires count_in_bounds_3 { 2 * count ≤ length new.old }
    requires spread { Spreads cells 0 new_vertices.old book.old }
    ensures kept { Kept book.old book.new }
    ensures curved { Curved cells (each (curve_by (kind_of kind) book.old.base) (pairs_in book.old) (curves_in old.now old_vertices.now count)) new.old new.new new_vertices.old new_vertices.new book.old book.new result }
{
    let mut rows = 0;
    let mut from = 0;
    for i in 0..count {
        let more = curve(
            kind,
            old,
            i,
            old_vertices,
            from,
            new,
            new_vertices,
            rows,
            cells,
            book,
        )?;
        from += old[2 * i + 1] as usize;
        rows = more;
    }
    Ok(rows)
}
