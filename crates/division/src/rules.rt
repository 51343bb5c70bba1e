// A list of elements is gone through row by row, whatever is made of one row.
ghost use Rattle.std.specs.Prelude.{◌≡◌, ℕ, suc, ◌*◌, ◌≤◌, length, map};
ghost use Rattle.geom.specs.Book.{Book as Pairs, Made, each};
ghost use Rattle.geom.specs.Elements.{Element};
ghost use Rattle.geom.specs.Memory.{first_of, element_row, element_of};
ghost use Rattle.book.specs.Answers.{pairs_in, Kept};
ghost use Rattle.division.specs.Writing.{Begins, Extended, Passed};

use book::{Book, Full};

// What is made of one row of a list.
pub trait RowRule {
    ghost corners: { ℕ };

    // What the rule's tables have to be.
    ghost Stands: { Self → Type 0 };

    // What it makes, by the vertices that were there before the book.
    ghost makes: { Self → ℕ → Pairs → Element → Made Element };

    // Writes what is made of a row behind the rows that stand.
    fn divide(
        &self,
        old: &[u32],
        row: usize,
        new: &mut [u32],
        rows: usize,
        cells: usize,
        book: &mut Book,
    ) -> Result<usize, Full>
        requires stands { Stands self.now }
        requires row_in_bounds { suc corners * suc row ≤ length old.now }
        requires begun { Begins corners cells rows new.old book.old }
        ensures kept { Kept book.old book.new }
        ensures extended { Extended corners cells rows (makes self.now book.old.base (pairs_in book.old) (element_of (element_row corners old.now row))) new.old new.new book.old book.new result };

    // The book only grows.
    ghost grows: { (rule : Self) (base : ℕ) (b : Pairs) (x : Element) → length b ≤ length (makes rule base b x).book };
}

// The rows of a list, in list order.
pub fn each_row<R: RowRule>(
    rule: &R,
    old: &[u32],
    count: usize,
    new: &mut [u32],
    cells: usize,
    book: &mut Book,
) -> Result<usize, Full>
    requires stands { R.Stands rule.now }
    requires count_in_bounds { suc R.corners * count ≤ length old.now }
    requires begun { Begins R.corners cells 0 new.old book.old }
    ensures kept { Kept book.old book.new }
    ensures passed { Passed cells (each (R.makes rule.now book.old.base) (pairs_in book.old) (map element_of (first_of (element_row R.corners old.now) count))) new.old new.new book.old book.new result }
{
    let mut rows = 0;
    for i in 0..count {
        rows = rule.divide(old, i, new, rows, cells, book)?;
    }
    Ok(rows)
}
