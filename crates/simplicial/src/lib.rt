// Triangles and tetrahedra, cut at the midpoints of their edges: into four and into eight. Places count the corners first, then the midpoints in the order
// in which they are made.
#![tactic(auto)]

ghost use Rattle.std.specs.Prelude.{◌*◌, ◌≤◌, length, map};
ghost use Rattle.geom.specs.Book.{each};
ghost use Rattle.geom.specs.Simplices.{triangle, tetrahedron};
ghost use Rattle.geom.specs.Memory.{first_of, element_row, element_of};
ghost use Rattle.book.specs.Answers.{pairs_in, Kept};
ghost use Rattle.division.specs.Writing.{Begins, Passed};

use book::{Book, Full};
use division::elements::divide_all;
use geom::kind::Kind;

// Triangle [a,b,c], p = ab, q = ac, r = bc made in this order: the ends of each.
const TRIANGLE_EDGES: [usize; 6] = [0, 1, 0, 2, 1, 2];

// [a,p,q], [p,b,r], [q,r,c], then [p,q,r] flipped: the places of the corners, and 1 where the piece is flipped.
#[rattlefmt::skip]
const TRIANGLE_PIECES: [usize; 16] = [
    0, 3, 4, 0,
    3, 1, 5, 0,
    4, 5, 2, 0,
    3, 4, 5, 1,
];

// Tetrahedron [a,b,c,d], midpoints 0 to 5 = ab, ac, ad, bc, bd, cd: the ends of each.
const TETRAHEDRON_EDGES: [usize; 12] = [0, 1, 0, 2, 0, 3, 1, 2, 1, 3, 2, 3];

// [a,0,1,2], [0,b,3,4], [1,3,c,5], [2,4,5,d], [0,1,2,4], then flipped [0,1,3,4], [1,3,4,5], then [1,2,4,5]: the midpoints are places 4 to 9.
#[rattlefmt::skip]
const TETRAHEDRON_PIECES: [usize; 40] = [
    0, 4, 5, 6, 0, // [a,0,1,2]
    4, 1, 7, 8, 0, // [0,b,3,4]
    5, 7, 2, 9, 0, // [1,3,c,5]
    6, 8, 9, 3, 0, // [2,4,5,d]
    4, 5, 6, 8, 0, // [0,1,2,4]
    4, 5, 7, 8, 1, // [0,1,3,4], flipped
    5, 7, 8, 9, 1, // [1,3,4,5], flipped
    5, 6, 8, 9, 0, // [1,2,4,5]
];

// Triangles in list order.
pub fn triangles(
    old: &[u32],
    count: usize,
    new: &mut [u32],
    cells: usize,
    book: &mut Book,
) -> Result<usize, Full>
    requires count_in_bounds { 4 * count ≤ length old.now }
    requires begun { Begins 3 cells 0 new.old book.old }
    ensures kept { Kept book.old book.new }
    ensures passed { Passed cells (each (triangle book.old.base) (pairs_in book.old) (map element_of (first_of (element_row 3 old.now) count))) new.old new.new book.old book.new result }
{
    divide_all(
        Kind::Simplices,
        old,
        count,
        3,
        &TRIANGLE_EDGES,
        &[],
        &TRIANGLE_PIECES,
        &[],
        new,
        cells,
        book,
    )
}

// Tetrahedra in list order.
pub fn tetrahedra(
    old: &[u32],
    count: usize,
    new: &mut [u32],
    cells: usize,
    book: &mut Book,
) -> Result<usize, Full>
    requires count_in_bounds { 5 * count ≤ length old.now }
    requires begun { Begins 4 cells 0 new.old book.old }
    ensures kept { Kept book.old book.new }
    ensures passed { Passed cells (each (tetrahedron book.old.base) (pairs_in book.old) (map element_of (first_of (element_row 4 old.now) count))) new.old new.new book.old book.new result }
{
    divide_all(
        Kind::Simplices,
        old,
        count,
        4,
        &TETRAHEDRON_EDGES,
        &[],
        &TETRAHEDRON_PIECES,
        &[],
        new,
        cells,
        book,
    )
}
