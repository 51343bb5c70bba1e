// An element is divided by tables. Its corners are read, the midpoints of its edges are made in the
// table's order, and its pieces are rows of a table, flat ones left out. One set of functions for both kinds and every number of corners.
ghost use Rattle.std.specs.Prelude.{◌≡◌, true, ℕ, suc, ◌+◌, ◌*◌, ◌/◌, ◌≤◌, ◌<◌, length, get_or, take, drop, map};
ghost use Rattle.geom.specs.Parity.{times};
ghost use Rattle.geom.specs.Book.{pair, each};
ghost use Rattle.geom.specs.Kinds.{kind_of};
ghost use Rattle.geom.specs.Elements.{point_at, pick, shut as shut_along, flat as flat_along, pieces as pieces_of};
ghost use Rattle.geom.specs.Rules.{divide as divide_by};
ghost use Rattle.geom.specs.Memory.{first_of, element_row, element_of, parity_of};
ghost use Rattle.book.specs.Cells.{pairs_of};
ghost use Rattle.book.specs.Answers.{pairs_in, Ready, Kept, InUse, Asked};
ghost use Rattle.division.specs.Writing.{written, Laying, Begins, Extended, Passed};
ghost use Rattle.division.specs.Shapes.{below, order_of, table_of, axis_from, axes_of, kept_from, shape_of, Shaped, Tabled};
ghost use Rattle.division.specs.Middles.{middles_of, Middle, MiddleIn};

use book::{Book, Full};
use geom::kind::Kind;
use geom::parity::Parity;

// Copies `count` words of the old list to the first points.
fn load(old: &[u32], from: usize, count: usize, points: &mut [u32])
    requires count_in_bounds { from + count ≤ length old.now }
    requires count_in_bounds_2 { count ≤ length points.old }
    ensures { points.new ≡ written points.old 0 (take count (drop from old.now)) }
{
    points[..count].copy_from_slice(&old[from..from + count]);
}

// The point at a place of a table.
pub fn point_at(points: &[u32], table: &[usize], at: usize) -> u32
    requires at_in_bounds { at < length table.now }
    requires at_in_bounds_2 { get_or table.now at 0 < length points.now }
    ensures { result ≡ point_at points.now (get_or table.now at 0) }
{
    points[table[at]]
}

// Writes the corners of one piece: the points at the places of a row of the table.
pub fn piece(points: &[u32], table: &[usize], from: usize, count: usize, new: &mut [u32], at: usize)
    requires table_value { below (length points.now) table.now ≡ true }
    requires count_in_bounds { from + count ≤ length table.now }
    requires count_in_bounds_2 { at + count ≤ length new.old }
    ensures { new.new ≡ written new.old at (pick points.now (take count (drop from table.now))) }
{
    for i in 0..count {
        new[at + i] = point_at(points, table, from + i);
    }
}

// The parity of a piece: flipped where the table's word is not 0.
pub fn turned(flip: usize, parity: Parity) -> Parity
    ensures { result ≡ times (parity_of flip) parity }
{
    if flip == 0 {
        return parity;
    }
    parity.flip()
}

// Whether the edges of a piece along one axis each have equal ends. `from` is where the piece's row of the table begins, `axis` where the axis does.
// The first edge that has not ends the loop, and the count tells: with `for` and a `return` (tried, proved) a pass over cubes takes 1.02 times
// the instructions.
fn shut(
    points: &[u32],
    corners: usize,
    table: &[usize],
    from: usize,
    axes: &[usize],
    axis: usize,
) -> bool
    requires tabled { Tabled corners points.now table.now axes.now }
    requires corners_in_bounds { from + suc corners ≤ length table.now }
    requires corners_in_bounds_2 { axis + corners ≤ length axes.now }
    ensures { result ≡ shut_along (pick points.now (take corners (drop from table.now))) (axis_from corners axes.now axis) }
{
    let count = corners / 2;
    let mut i = 0;
    while i < count {
        let a = point_at(points, table, from + axes[axis + 2 * i]);
        let b = point_at(points, table, from + axes[axis + 2 * i + 1]);
        if a != b {
            break;
        }
        i += 1;
    }
    i == count
}

// Whether a piece is flat: its edges along one of the axes each have equal ends.
// The axes are counted by hand: with `for axis in axes.chunks_exact(corners)` (tried, proved) a pass over simplices takes 1.30 times the instructions.
fn flat(points: &[u32], corners: usize, table: &[usize], from: usize, axes: &[usize]) -> bool
    requires tabled { Tabled corners points.now table.now axes.now }
    requires corners_in_bounds { from + suc corners ≤ length table.now }
    ensures { result ≡ flat_along (axes_of corners axes.now) (pick points.now (take corners (drop from table.now))) }
{
    let mut axis = 0;
    while corners <= axes.len() - axis {
        if shut(points, corners, table, from, axes, axis) {
            return true;
        }
        axis += corners;
    }
    false
}

// Writes one piece behind the rows that stand, or leaves it out where it is flat. `from` is where its row of the table begins.
fn keep(
    points: &[u32],
    corners: usize,
    parity: Parity,
    table: &[usize],
    from: usize,
    axes: &[usize],
    new: &mut [u32],
    rows: usize,
    cells: usize,
) -> Result<usize, Full>
    requires tabled { Tabled corners points.now table.now axes.now }
    requires corners_in_bounds { from + suc corners ≤ length table.now }
    requires rows_le_cells { rows ≤ cells }
    requires cells_in_bounds { suc corners * cells ≤ length new.old }
    ensures { Laying corners cells rows (kept_from corners parity points.now table.now axes.now from) new.old new.new result }
{
    if flat(points, corners, table, from, axes) {
        return Ok(rows);
    }
    if rows == cells {
        return Err(Full);
    }
    let at = (corners + 1) * rows;
    piece(points, table, from, corners, new, at);
    let word = u32::from(turned(table[from + corners], parity));
    new[at + corners] = word;
    Ok(rows + 1)
}

// Writes the pieces of an element that are not flat behind the rows that stand, row by row of the table.
pub fn assemble(
    points: &[u32],
    corners: usize,
    parity: Parity,
    table: &[usize],
    axes: &[usize],
    new: &mut [u32],
    rows: usize,
    cells: usize,
) -> Result<usize, Full>
    requires tabled { Tabled corners points.now table.now axes.now }
    requires rows_le_cells { rows ≤ cells }
    requires cells_in_bounds { suc corners * cells ≤ length new.old }
    ensures { Laying corners cells rows (pieces_of (axes_of corners axes.now) parity points.now (table_of corners table.now)) new.old new.new result }
{
    let mut filled = rows;
    for row in table.chunks_exact(corners + 1) {
        let next = keep(points, corners, parity, row, 0, axes, new, filled, cells)?;
        filled = next;
    }
    Ok(filled)
}

// Makes the midpoints of the edges in the table's order, and writes them behind the corners: how many entries the book has afterwards. The book
// is handed in by its parts, so that the compiler keeps them in registers: behind a reference it takes a third more instructions.
fn make_middles(
    kind: Kind,
    points: &mut [u32],
    corners: usize,
    edges: &[usize],
    cells: &mut [u32],
    made: usize,
    room: usize,
    base: usize,
) -> Result<usize, Full>
    requires ready { Ready base room made cells.old }
    requires edges_value { below corners edges.now ≡ true }
    requires edges_in_bounds { corners + length edges.now / 2 ≤ length points.old }
    ensures { Middle corners base room points.old (middles_of (kind_of kind) corners base edges.now points.old (pairs_of cells.old made)) points.new cells.new result }
{
    let mut book = Book {
        cells,
        made,
        room,
        base,
    };
    let count = edges.len() / 2;
    for i in 0..count {
        let a = point_at(points, edges, 2 * i);
        let b = point_at(points, edges, 2 * i + 1);
        let vertex = book.midpoint(kind, a, b)?;
        points[corners + i] = vertex;
    }
    let made = book.made;
    Ok(made)
}

// The same with the book.
fn middles(
    kind: Kind,
    points: &mut [u32],
    corners: usize,
    edges: &[usize],
    book: &mut Book,
) -> Result<(), Full>
    requires ready { InUse book.old }
    requires edges_value { below corners edges.now ≡ true }
    requires edges_in_bounds { corners + length edges.now / 2 ≤ length points.old }
    ensures kept { Kept book.old book.new }
    ensures made { MiddleIn corners points.old (middles_of (kind_of kind) corners book.old.base edges.now points.old (pairs_in book.old)) points.new book.old book.new result }
{
    let made = book.made;
    let room = book.room;
    let base = book.base;
    let cells = &mut *book.cells;
    let made = make_middles(kind, points, corners, edges, cells, made, room, base)?;
    book.made = made;
    Ok(())
}

// The midpoint of [a,b]. Every midpoint is made where those of an element's edges are, so that the book has one caller and costs no call.
pub fn middle(kind: Kind, book: &mut Book, a: u32, b: u32) -> Result<u32, Full>
    requires { InUse book.old }
    ensures kept { Kept book.old book.new }
    ensures asked { Asked (kind_of kind) book.old (pair a b) book.new result }
{
    let mut points = [a, b, 0];
    middles(kind, &mut points, 2, &[0, 1], book)?;
    Ok(points[2])
}

// Puts the points in the order that the table speaks of. No words of order leave them as they were made.
fn arrange(points: &mut [u32], count: usize, order: &[usize])
    requires count_bound { count ≤ 27 }
    requires count_in_bounds { count ≤ length points.old }
    requires order_value { below count order.now ≡ true }
    requires order_len { length (order_of count order.now) ≡ count }
    ensures { take count points.new ≡ pick (take count points.old) (order_of count order.now) }
{
    if order.len() == 0 {
        return;
    }
    let mut ordered = [0u32; 27];
    piece(&points[..count], order, 0, count, &mut ordered, 0);
    load(&ordered, 0, count, points);
}

// The tables of an element stay apart. In a struct that is handed on by reference (tried, with every proof closed) the compiler no longer writes
// the loop below out for the corners and tables of simplices: a pass over them takes 1.31 times the instructions, over cubes 1.06 times.

// Divides one element: its corners are read, its midpoints made, all points put in the order that the table speaks of, and its pieces written.
fn divide(
    kind: Kind,
    old: &[u32],
    row: usize,
    corners: usize,
    edges: &[usize],
    order: &[usize],
    table: &[usize],
    axes: &[usize],
    new: &mut [u32],
    rows: usize,
    cells: usize,
    book: &mut Book,
) -> Result<usize, Full>
    requires shaped { Shaped corners edges.now order.now table.now axes.now }
    requires row_in_bounds { suc corners * suc row ≤ length old.now }
    requires begun { Begins corners cells rows new.old book.old }
    ensures kept { Kept book.old book.new }
    ensures extended { Extended corners cells rows (divide_by (kind_of kind) (shape_of corners edges.now order.now table.now axes.now) book.old.base (pairs_in book.old) (element_of (element_row corners old.now row))) new.old new.new book.old book.new result }
{
    let from = (corners + 1) * row;
    let mut points = [0u32; 27];
    load(old, from, corners, &mut points);
    middles(kind, &mut points, corners, edges, book)?;
    let count = corners + edges.len() / 2;
    arrange(&mut points, count, order);
    let parity = Parity::from(old[from + corners]);
    assemble(
        &points[..count],
        corners,
        parity,
        table,
        axes,
        new,
        rows,
        cells,
    )
}

// Divides so many elements of a list in list order, from a row on, behind the rows that stand, with one book through all. Every element is
// divided here, so that `divide` has one caller and costs no call; and it is no rule of `rules::each_row`, which would be the struct of tables above.
pub fn divide_from(
    kind: Kind,
    old: &[u32],
    first: usize,
    count: usize,
    corners: usize,
    edges: &[usize],
    order: &[usize],
    table: &[usize],
    axes: &[usize],
    new: &mut [u32],
    start: usize,
    cells: usize,
    book: &mut Book,
) -> Result<usize, Full>
    requires shaped { Shaped corners edges.now order.now table.now axes.now }
    requires count_in_bounds { suc corners * (first + count) ≤ length old.now }
    requires begun { Begins corners cells start new.old book.old }
    ensures kept { Kept book.old book.new }
    ensures extended { Extended corners cells start (each (divide_by (kind_of kind) (shape_of corners edges.now order.now table.now axes.now) book.old.base) (pairs_in book.old) (map element_of (first_of (λ (i : ℕ). element_row corners old.now (first + i)) count))) new.old new.new book.old book.new result }
{
    let mut rows = start;
    for i in 0..count {
        rows = divide(
            kind,
            old,
            first + i,
            corners,
            edges,
            order,
            table,
            axes,
            new,
            rows,
            cells,
            book,
        )?;
    }
    Ok(rows)
}

// Divides the elements of a whole list, in list order.
pub fn divide_all(
    kind: Kind,
    old: &[u32],
    count: usize,
    corners: usize,
    edges: &[usize],
    order: &[usize],
    table: &[usize],
    axes: &[usize],
    new: &mut [u32],
    cells: usize,
    book: &mut Book,
) -> Result<usize, Full>
    requires shaped { Shaped corners edges.now order.now table.now axes.now }
    requires count_in_bounds { suc corners * count ≤ length old.now }
    requires begun { Begins corners cells 0 new.old book.old }
    ensures kept { Kept book.old book.new }
    ensures passed { Passed cells (each (divide_by (kind_of kind) (shape_of corners edges.now order.now table.now axes.now) book.old.base) (pairs_in book.old) (map element_of (first_of (element_row corners old.now) count))) new.old new.new book.old book.new result }
{
    divide_from(
        kind, old, 0, count, corners, edges, order, table, axes, new, 0, cells, book,
    )
}
