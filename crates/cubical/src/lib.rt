// Squares and cubes, halved along each axis: into four and into eight, flat pieces left out. Places count the corners first, then the midpoints in the
// order in which they are made. The tables are the Rust's, row for row; a row of a table of pieces ends with a 0: no piece is flipped.
#![tactic(auto)]

ghost use Rattle.std.specs.Prelude.{◌≡◌, suc, ◌*◌, ◌≤◌, length, [], ◌∷◌, map};
ghost use Rattle.geom.specs.Book.{each};
ghost use Rattle.geom.specs.Elements.{flat};
ghost use Rattle.geom.specs.Cubes.{SQUARE_AXES as square_axes, SQUARE, square as square_by, cube as cube_by};
ghost use Rattle.geom.specs.Memory.{first_of, element_row, element_of};
ghost use Rattle.book.specs.Answers.{pairs_in, Kept};
ghost use Rattle.division.specs.Writing.{Begins, Extended, Passed};
ghost use Rattle.division.specs.Shapes.{shape_of, Shaped};
ghost use Rattle.cubical.specs.Growing.{square_grows};

use book::{Book, Full};
use division::elements::{divide_all, divide_from, middle};
use division::rules::{RowRule, each_row};
use geom::kind::Kind;

// Square [a,b,c,d]: midpoints ad, ab, ac, bd, cd in this order.
const SQUARE_EDGES: [usize; 10] = [0, 3, 0, 1, 0, 2, 1, 3, 2, 3];

// The points of the next table: a, b, c, d, ab, ac, bd, cd, and last the centre ad, which is made first.
const SQUARE_POINTS: [usize; 9] = [0, 1, 2, 3, 5, 6, 7, 8, 4];

// Defines how new squares should be from linearly divided points.
#[rattlefmt::skip]
const SQUARE_ASSEMBLY_ORDER: [usize; 20] = [
    0, 4, 5, 8, 0,
    4, 1, 8, 6, 0,
    5, 8, 2, 7, 0,
    8, 6, 7, 3, 0,
];

// The edges of a square along each axis, by the places of their ends: a flat square is [a,b,a,b] or [a,a,c,c].
#[rattlefmt::skip]
const SQUARE_AXES: [usize; 8] = [
    0, 2, 1, 3,
    0, 1, 2, 3,
];

// Cube: midpoints by CUBE_EDGE_ORDER, then by CUBE_FACE_ORDER (first and last corner), then of corners 0 and 7.
#[rattlefmt::skip]
const CUBE_EDGES: [usize; 38] = [
    0, 1,
    0, 2,
    0, 4,
    1, 3,
    1, 5,
    2, 3,
    2, 6,
    3, 7,
    4, 5,
    4, 6,
    5, 7,
    6, 7,
    0, 3, // face [0, 1, 2, 3]
    0, 5, // face [0, 1, 4, 5]
    0, 6, // face [0, 2, 4, 6]
    1, 7, // face [1, 3, 5, 7]
    2, 7, // face [2, 3, 6, 7]
    4, 7, // face [4, 5, 6, 7]
    0, 7, // the centre
];

// Defines how new cubes should be from linearly divided points.
#[rattlefmt::skip]
const CUBE_ASSEMBLY_ORDER: [usize; 72] = [
    0, 8, 9, 20, 10, 21, 22, 26, 0,
    8, 1, 20, 11, 21, 12, 26, 23, 0,
    9, 20, 2, 13, 22, 26, 14, 24, 0,
    20, 11, 13, 3, 26, 23, 24, 15, 0,
    10, 21, 22, 26, 4, 16, 17, 25, 0,
    21, 12, 26, 23, 16, 5, 25, 18, 0,
    22, 26, 14, 24, 17, 25, 6, 19, 0,
    26, 23, 24, 15, 25, 18, 19, 7, 0,
];

// The edges of a cube along each axis: a cube is flat if the four along one axis each have equal ends.
#[rattlefmt::skip]
const CUBE_AXES: [usize; 24] = [
    0, 4, 1, 5, 2, 6, 3, 7,
    0, 2, 1, 3, 4, 6, 5, 7,
    0, 1, 2, 3, 4, 5, 6, 7,
];

// Whether a square has no area: [a,b,a,b] or [a,a,c,c].
fn is_flat(a: u32, b: u32, c: u32, d: u32) -> bool
    ensures { result ≡ flat square_axes (a ∷ b ∷ c ∷ d ∷ []) }
{
    ((a == c) & (b == d)) | ((a == b) & (c == d))
}

// Square [a,b,c,d]: nothing if a = d; if it is flat, the midpoint of [a,d] is made but no square; else it is divided.
fn square(
    old: &[u32],
    row: usize,
    edges: &[usize],
    order: &[usize],
    table: &[usize],
    axes: &[usize],
    new: &mut [u32],
    rows: usize,
    cells: usize,
    book: &mut Book,
) -> Result<usize, Full>
    requires row_in_bounds { 5 * suc row ≤ length old.now }
    requires shaped { Shaped 4 edges.now order.now table.now axes.now }
    requires axes_value { shape_of 4 edges.now order.now table.now axes.now ≡ SQUARE }
    requires begun { Begins 4 cells rows new.old book.old }
    ensures kept { Kept book.old book.new }
    ensures extended { Extended 4 cells rows (square_by book.old.base (pairs_in book.old) (element_of (element_row 4 old.now row))) new.old new.new book.old book.new result }
{
    let from = 5 * row;
    let a = old[from];
    let d = old[from + 3];
    if a == d {
        return Ok(rows);
    }
    if is_flat(a, old[from + 1], old[from + 2], d) {
        middle(Kind::Cubes, book, a, d)?;
        return Ok(rows);
    }
    divide_from(
        Kind::Cubes,
        old,
        row,
        1,
        4,
        edges,
        order,
        table,
        axes,
        new,
        rows,
        cells,
        book,
    )
}

// The rule of squares, by their tables, which are laid out once for all of them.
#[derive(Clone, Copy)]
struct SquareRule<'a> {
    edges: &'a [usize],
    order: &'a [usize],
    table: &'a [usize],
    axes: &'a [usize],
}

impl<'a> RowRule for SquareRule<'a> {
    ghost corners = { 4 };

    ghost Stands = { λ s. Shaped 4 s.edges.now s.order.now s.table.now s.axes.now × shape_of 4 s.edges.now s.order.now s.table.now s.axes.now ≡ SQUARE };

    ghost makes = { λ s. square_by };

    fn divide(
        &self,
        old: &[u32],
        row: usize,
        new: &mut [u32],
        rows: usize,
        cells: usize,
        book: &mut Book,
    ) -> Result<usize, Full> {
        square(
            old, row, self.edges, self.order, self.table, self.axes, new, rows, cells, book,
        )
    }

    ghost grows = { λ s. square_grows };
}

// Squares in list order.
pub fn squares(
    old: &[u32],
    count: usize,
    new: &mut [u32],
    cells: usize,
    book: &mut Book,
) -> Result<usize, Full>
    requires count_in_bounds { 5 * count ≤ length old.now }
    requires begun { Begins 4 cells 0 new.old book.old }
    ensures kept { Kept book.old book.new }
    ensures passed { Passed cells (each (square_by book.old.base) (pairs_in book.old) (map element_of (first_of (element_row 4 old.now) count))) new.old new.new book.old book.new result }
{
    let rule = SquareRule {
        edges: &SQUARE_EDGES,
        order: &SQUARE_POINTS,
        table: &SQUARE_ASSEMBLY_ORDER,
        axes: &SQUARE_AXES,
    };
    each_row(&rule, old, count, new, cells, book)
}

// Cubes in list order.
pub fn cubes(
    old: &[u32],
    count: usize,
    new: &mut [u32],
    cells: usize,
    book: &mut Book,
) -> Result<usize, Full>
    requires count_in_bounds { 9 * count ≤ length old.now }
    requires begun { Begins 8 cells 0 new.old book.old }
    ensures kept { Kept book.old book.new }
    ensures passed { Passed cells (each (cube_by book.old.base) (pairs_in book.old) (map element_of (first_of (element_row 8 old.now) count))) new.old new.new book.old book.new result }
{
    divide_all(
        Kind::Cubes,
        old,
        count,
        8,
        &CUBE_EDGES,
        &[],
        &CUBE_ASSEMBLY_ORDER,
        &CUBE_AXES,
        new,
        cells,
        book,
    )
}
