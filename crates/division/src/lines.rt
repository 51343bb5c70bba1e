// Lines, by the rule of the kind: a line whose pair of ends is new becomes two, which meet in the pair's midpoint; of one whose pair is known
// nothing stays.
ghost use Rattle.std.specs.Prelude.{◌≡◌, suc, ◌*◌, ◌≤◌, length, map};
ghost use Rattle.geom.specs.Book.{each};
ghost use Rattle.geom.specs.Kinds.{kind_of};
ghost use Rattle.geom.specs.Rules.{line as line_by};
ghost use Rattle.geom.specs.Memory.{first_of, element_row, element_of};
ghost use Rattle.book.specs.Answers.{pairs_in, Kept};
ghost use Rattle.division.specs.Shapes.{LINE_TABLE};
ghost use Rattle.division.specs.Writing.{Begins, Extended, Passed};
ghost use Rattle.division.specs.Growing.{line_grows};

use crate::elements::{assemble, middle};
use crate::rules::{RowRule, each_row};
use book::{Book, Full};
use geom::kind::Kind;
use geom::parity::Parity;

// Line [a,b] with the vertex v at place 2: [a,v], [v,b] of the same parity.
const LINE_PIECES: [usize; 6] = [0, 2, 0, 2, 1, 0];

// Line [a,b]: if the pair is new, vertex v and lines [a,v], [v,b] of the same parity; if known, nothing. What makes no entry is known, so
// a line [a,a] of cubes is.
fn line(
    kind: Kind,
    old: &[u32],
    row: usize,
    table: &[usize],
    new: &mut [u32],
    rows: usize,
    cells: usize,
    book: &mut Book,
) -> Result<usize, Full>
    requires row_in_bounds { 3 * suc row ≤ length old.now }
    requires table_value { table.now ≡ LINE_TABLE }
    requires begun { Begins 2 cells rows new.old book.old }
    ensures kept { Kept book.old book.new }
    ensures extended { Extended 2 cells rows (line_by (kind_of kind) book.old.base (pairs_in book.old) (element_of (element_row 2 old.now row))) new.old new.new book.old book.new result }
{
    let from = 3 * row;
    let a = old[from];
    let b = old[from + 1];
    let parity = Parity::from(old[from + 2]);
    let made = book.made;
    let vertex = middle(kind, book, a, b)?;
    if book.made == made {
        return Ok(rows);
    }
    let points = [a, b, vertex];
    assemble(&points, 2, parity, table, &[], new, rows, cells)
}

// The rule of lines, by the table of their pieces, which is laid out once for all of them.
#[derive(Clone, Copy)]
struct LineRule<'a> {
    kind: Kind,
    table: &'a [usize],
}

impl<'a> RowRule for LineRule<'a> {
    ghost corners = { 2 };

    ghost Stands = { λ s. s.table.now ≡ LINE_TABLE };

    ghost makes = { λ s. line_by (kind_of s.kind) };

    fn divide(
        &self,
        old: &[u32],
        row: usize,
        new: &mut [u32],
        rows: usize,
        cells: usize,
        book: &mut Book,
    ) -> Result<usize, Full> {
        line(self.kind, old, row, self.table, new, rows, cells, book)
    }

    ghost grows = { λ s. line_grows (kind_of s.kind) };
}

// Lines in list order.
pub fn lines(
    kind: Kind,
    old: &[u32],
    count: usize,
    new: &mut [u32],
    cells: usize,
    book: &mut Book,
) -> Result<usize, Full>
    requires count_in_bounds { 3 * count ≤ length old.now }
    requires begun { Begins 2 cells 0 new.old book.old }
    ensures kept { Kept book.old book.new }
    ensures passed { Passed cells (each (line_by (kind_of kind) book.old.base) (pairs_in book.old) (map element_of (first_of (element_row 2 old.now) count))) new.old new.new book.old book.new result }
{
    let rule = LineRule {
        kind,
        table: &LINE_PIECES,
    };
    each_row(&rule, old, count, new, cells, book)
}
