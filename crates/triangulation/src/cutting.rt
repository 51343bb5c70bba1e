// An element is cut by a table. A row of the table has the places of a piece's corners, then 0, or 1 where the piece is
// odd; a piece with equal neighbours in its list is dropped. The pieces are counted first and then written. One set of functions for
// squares, cubes and any other table, known at run time too: `corners` is how many an element has, `size` how many a piece has, `pieces` how many
// rows the table has.
ghost use Rattle.std.specs.Prelude.{◌≡◌, ℕ, suc, ◌+◌, ◌*◌, ◌≤◌, List, length, take, drop};
ghost use Rattle.geom.specs.declared.parity.Parity.{Parity};
ghost use Rattle.geom.specs.Elements.{Element, pick, flat};
ghost use Rattle.geom.specs.Memory.{element_words, over};
ghost use Rattle.geom.specs.Refinement.{LIMIT};
ghost use Rattle.division.specs.Writing.{Laid};
ghost use Rattle.triangulation.specs.Cutting.{neighbours, cut_from, cut_by, cut_all, Speaks, Table};

use division::elements::{piece, point_at, turned};
use geom::parity::Parity;

// Elements that are cut by a table of their own, and what it makes of them. A trait's constants, so that the loops can be compiled for each table: as
// fields of a struct (tried, by reference and by value) they take 2.8 and 2.4 times the instructions.
pub trait Cut {
    ghost CORNERS: { ℕ };

    ghost SIZE: { ℕ };

    ghost PIECES: { ℕ };

    ghost table: { List ℕ };

    ghost made: { List ℕ → ℕ → List Element };

    const CORNERS: usize;

    const SIZE: usize;

    const PIECES: usize;

    fn table() -> &'static [usize]
        ensures { result.now ≡ table };

    ghost holds: { Table CORNERS SIZE PIECES table };

    ghost makes: { (old : List ℕ) (rows : ℕ) → cut_all CORNERS SIZE table PIECES old rows ≡ made old rows };
}

// Whether a piece has equal neighbours in its list. `from` is where its row of the table begins.
fn meets(points: &[u32], size: usize, table: &[usize], from: usize) -> bool
    requires speaks { Speaks (length points.now) size table.now }
    requires size_in_bounds { from + suc size ≤ length table.now }
    ensures { result ≡ flat (neighbours size) (pick points.now (take size (drop from table.now))) }
{
    let mut last = point_at(points, table, from);
    for i in 0..size - 1 {
        let next = point_at(points, table, from + (i + 1));
        if last == next {
            return true;
        }
        last = next;
    }
    false
}

// How many pieces a row of the table makes: one, or none where it has equal neighbours.
fn one(points: &[u32], size: usize, table: &[usize], from: usize) -> usize
    requires speaks { Speaks (length points.now) size table.now }
    requires size_in_bounds { from + suc size ≤ length table.now }
    ensures { (p : Parity) → result ≡ length (cut_from size table.now from p points.now) }
{
    usize::from(!meets(points, size, table, from))
}

// How many pieces an element has, whatever its parity.
fn kept(points: &[u32], size: usize, table: &[usize], pieces: usize) -> usize
    requires { Table (length points.now) size pieces table.now }
    ensures { (p : Parity) → result ≡ length (cut_by size table.now pieces p points.now) }
{
    let mut kept = 0;
    for j in 0..pieces {
        kept += one(points, size, table, (size + 1) * j);
    }
    kept
}

// How many pieces the elements of a list have, by any table that is handed in.
pub fn count_all(
    old: &[u32],
    rows: usize,
    corners: usize,
    size: usize,
    table: &[usize],
    pieces: usize,
) -> usize
    requires table { Table corners size pieces table.now }
    requires rows_in_bounds { suc corners * rows ≤ length old.now }
    requires rows_bound { rows ≤ LIMIT }
    ensures { result ≡ length (cut_all corners size table.now pieces old.now rows) }
{
    let mut total = 0;
    for i in 0..rows {
        let at = (corners + 1) * i;
        let end = at + corners;
        total += kept(&old[at..end], size, table, pieces);
    }
    total
}

// Writes one piece behind the rows that stand, or leaves it out where it has equal neighbours. Parities multiply.
fn place(
    points: &[u32],
    parity: Parity,
    size: usize,
    table: &[usize],
    from: usize,
    new: &mut [u32],
    rows: usize,
) -> usize
    requires speaks { Speaks (length points.now) size table.now }
    requires size_in_bounds { from + suc size ≤ length table.now }
    requires points_in_bounds { suc size * (rows + length (cut_from size table.now from parity points.now)) ≤ length new.old }
    ensures { Laid size (rows + length (cut_from size table.now from parity points.now)) rows (cut_from size table.now from parity points.now) new.old new.new result }
{
    if meets(points, size, table, from) {
        return rows;
    }
    let at = (size + 1) * rows;
    piece(points, table, from, size, new, at);
    let word = u32::from(turned(table[from + size], parity));
    new[at + size] = word;
    rows + 1
}

// Writes the pieces of an element behind the rows that stand, row by row of the table.
fn write_one(
    points: &[u32],
    parity: Parity,
    size: usize,
    table: &[usize],
    pieces: usize,
    new: &mut [u32],
    rows: usize,
) -> usize
    requires table { Table (length points.now) size pieces table.now }
    requires points_in_bounds { suc size * (rows + length (cut_by size table.now pieces parity points.now)) ≤ length new.old }
    ensures { Laid size (rows + length (cut_by size table.now pieces parity points.now)) rows (cut_by size table.now pieces parity points.now) new.old new.new result }
{
    let mut filled = rows;
    for j in 0..pieces {
        let from = (size + 1) * j;
        filled = place(points, parity, size, table, from, new, filled);
    }
    filled
}

// Writes the pieces of the elements of a list, by any table that is handed in: in list order, from the start of the slice lent for them.
pub fn cut_all(
    old: &[u32],
    rows: usize,
    corners: usize,
    size: usize,
    table: &[usize],
    pieces: usize,
    new: &mut [u32],
)
    requires table { Table corners size pieces table.now }
    requires rows_in_bounds { suc corners * rows ≤ length old.now }
    requires rows_in_bounds_2 { suc size * length (cut_all corners size table.now pieces old.now rows) ≤ length new.old }
    ensures { new.new ≡ over new.old (element_words (cut_all corners size table.now pieces old.now rows)) }
{
    let mut filled = 0;
    for i in 0..rows {
        let at = (corners + 1) * i;
        let end = at + corners;
        let parity = Parity::from(old[end]);
        filled = write_one(&old[at..end], parity, size, table, pieces, new, filled);
    }
}

// How many pieces the elements of a list have, by their own table.
pub fn count<C: Cut>(old: &[u32], rows: usize) -> usize
    requires rows_in_bounds { suc C.CORNERS * rows ≤ length old.now }
    requires rows_bound { rows ≤ LIMIT }
    ensures { result ≡ length (C.made old.now rows) }
{
    count_all(old, rows, C::CORNERS, C::SIZE, C::table(), C::PIECES)
}

// Writes the pieces of the elements of a list, by their own table.
pub fn write<C: Cut>(old: &[u32], rows: usize, new: &mut [u32])
    requires rows_in_bounds { suc C.CORNERS * rows ≤ length old.now }
    requires rows_in_bounds_2 { suc C.SIZE * length (C.made old.now rows) ≤ length new.old }
    ensures { new.new ≡ over new.old (element_words (C.made old.now rows)) }
{
    cut_all(old, rows, C::CORNERS, C::SIZE, C::table(), C::PIECES, new);
}
