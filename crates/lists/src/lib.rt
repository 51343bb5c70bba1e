// The lists of a pass: lines, then areas, volumes and curves, read on one bench and written on the other, with one book through all.
#![tactic(auto)]

ghost use Rattle.std.specs.Prelude.{◌≡◌, ℕ, map, suc, ◌*◌, ◌≤◌, length};
ghost use Rattle.geom.specs.Book.{Kind as Named, Book as Pairs, Made, each};
ghost use Rattle.geom.specs.Elements.{Element};
ghost use Rattle.geom.specs.Kinds.{kind_of};
ghost use Rattle.geom.specs.Lent.{Same};
ghost use Rattle.geom.specs.Memory.{area_corners, volume_corners, first_of, element_row, element_of, over};
ghost use Rattle.geom.specs.Between.{area_rule, volume_rule};
ghost use Rattle.book.specs.Answers.{pairs_in, Kept};
ghost use Rattle.division.specs.Writing.{Begins, Passed};
ghost use Rattle.lists.specs.Lists.{slices_of, slices_on, points_of, passed, Given, Still, Told};

use book::{Book, Full};
use cubical::{cubes, squares};
use division::curves::curves as divide_curves;
use division::lines::lines as divide_lines;
use geom::answer::Sizes;
use geom::bench::{Bench, BenchMut};
use geom::kind::Kind;
use geom::words::copy;
use simplicial::{tetrahedra, triangles};

// What a pass gives: the sizes and the book's entries afterwards.
#[derive(Clone, Copy)]
pub struct Stage {
    pub sizes: Sizes,
    pub made: usize,
}

// What the elements of a list are: how many corners they have, by the kind, and by what rule they are divided.
trait Parts {
    ghost corners: { Named → ℕ };

    ghost rule: { Named → ℕ → Pairs → Element → Made Element };

    fn divide(
        kind: Kind,
        old: &[u32],
        count: usize,
        new: &mut [u32],
        cells: usize,
        book: &mut Book,
    ) -> Result<usize, Full>
        requires count_in_bounds { suc (corners (kind_of kind)) * count ≤ length old.now }
        requires begun { Begins (corners (kind_of kind)) cells 0 new.old book.old }
        ensures kept { Kept book.old book.new }
        ensures passed { Passed cells (each (rule (kind_of kind) book.old.base) (pairs_in book.old) (map element_of (first_of (element_row (corners (kind_of kind)) old.now) count))) new.old new.new book.old book.new result };
}

// Squares or triangles.
struct Areas;

impl Parts for Areas {
    ghost corners = { area_corners };

    ghost rule = { area_rule };

    fn divide(
        kind: Kind,
        old: &[u32],
        count: usize,
        new: &mut [u32],
        cells: usize,
        book: &mut Book,
    ) -> Result<usize, Full> {
        match kind {
            Kind::Cubes => squares(old, count, new, cells, book),
            Kind::Simplices => triangles(old, count, new, cells, book),
        }
    }
}

// Cubes or tetrahedra.
struct Volumes;

impl Parts for Volumes {
    ghost corners = { volume_corners };

    ghost rule = { volume_rule };

    fn divide(
        kind: Kind,
        old: &[u32],
        count: usize,
        new: &mut [u32],
        cells: usize,
        book: &mut Book,
    ) -> Result<usize, Full> {
        match kind {
            Kind::Cubes => cubes(old, count, new, cells, book),
            Kind::Simplices => tetrahedra(old, count, new, cells, book),
        }
    }
}

// Divides a whole list, in list order. No tables are laid out for a list without entries.
fn divide_parts<P: Parts>(
    kind: Kind,
    old: &[u32],
    count: usize,
    new: &mut [u32],
    cells: usize,
    book: &mut Book,
) -> Result<usize, Full>
    requires count_in_bounds { suc (P.corners (kind_of kind)) * count ≤ length old.now }
    requires begun { Begins (P.corners (kind_of kind)) cells 0 new.old book.old }
    ensures kept { Kept book.old book.new }
    ensures passed { Passed cells (each (P.rule (kind_of kind) book.old.base) (pairs_in book.old) (map element_of (first_of (element_row (P.corners (kind_of kind)) old.now) count))) new.old new.new book.old book.new result }
{
    if count == 0 {
        return Ok(0);
    }
    P::divide(kind, old, count, new, cells, book)
}

// Lines, then areas, volumes, curves: s are the sizes of the old lists, c the cells that the new ones may have.
pub fn lists(
    kind: Kind,
    old: &Bench,
    new: &mut BenchMut,
    book: &mut [u32],
    s: Sizes,
    c: Sizes,
    made: usize,
    room: usize,
    base: usize,
) -> Result<Stage, Full>
    requires { Given (kind_of kind) base room made s c (slices_of old.now) (slices_on new.old) book.old }
    ensures same { Same new.new new.old }
    ensures still { Still new.new new.old }
    ensures told { Told base room s c (passed (kind_of kind) base s (slices_of old.now) book.old made) (slices_on new.old) (slices_on new.new) book.new result }
{
    let mut book = Book {
        cells: book,
        made,
        room,
        base,
    };
    let line = divide_lines(kind, old.lines, s.lines, new.lines, c.lines, &mut book)?;
    let area = divide_parts::<Areas>(kind, old.areas, s.areas, new.areas, c.areas, &mut book)?;
    let volume = divide_parts::<Volumes>(
        kind,
        old.volumes,
        s.volumes,
        new.volumes,
        c.volumes,
        &mut book,
    )?;
    let step = divide_curves(
        kind,
        old.curves,
        s.curves,
        old.steps,
        new.curves,
        new.steps,
        c.curve_vertices,
        &mut book,
    )?;
    let sizes = Sizes {
        vertices: base + book.made,
        points: s.points,
        lines: line,
        areas: area,
        volumes: volume,
        curves: s.curves,
        curve_vertices: step,
    };
    let made = book.made;
    Ok(Stage { sizes, made })
}

// Points stay: they are copied to the other bench.
pub fn copy_points(old: &[u32], new: &mut [u32], count: usize)
    requires count_in_bounds { count ≤ length old.now }
    requires count_in_bounds_2 { count ≤ length new.old }
    ensures { new.new ≡ over new.old (points_of old.now count) }
{
    copy(old, new, count);
}
