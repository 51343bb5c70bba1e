// One pass of the refinement in memory. It reads the eight slices of one bench and writes those of the other.
#![tactic(auto)]

ghost use Rattle.geom.specs.Kinds.{kind_of};
ghost use Rattle.geom.specs.Lent.{words_of, words_on, Same, SameWork};
ghost use Rattle.geom.specs.Refinement.{pass_over};
ghost use Rattle.pass.specs.Benches.{state_of, lent_of, Held, Lends, Passed};

use book::Full;
use geom::answer::Sizes;
use geom::bench::{Bench, BenchMut, Work};
use geom::kind::Kind;
use lists::{Stage, copy_points, lists};
use vertices::lists::{ElementList, Lists, NewPairs, Vertices};
use vertices::pass::pass_vertices;

// What stays the same from pass to pass of a refinement.
#[derive(Clone, Copy)]
pub struct Terms {
    pub kind: Kind,
    // How many entries each list may have, and how many the book.
    pub cells: Sizes,
    pub room: usize,
    // How many vertices were handed in: entry e of the book makes the vertex base + e.
    pub base: usize,
    // Whether smoothing moves vertices along the time axis too.
    pub time: bool,
}

// One pass: points are copied, the lists made, then the vertices. s are the sizes of the bench that is read, and so many entries of the book were made.
pub fn pass(
    terms: Terms,
    old: &Bench,
    new: &mut BenchMut,
    work: &mut Work,
    s: Sizes,
    made: usize,
) -> Result<Stage, Full>
    requires held { Held (kind_of terms.kind) terms.base s (words_of old.now) work.old.book.now made }
    requires lends { Lends (kind_of terms.kind) terms.base terms.room terms.cells (words_of old.now) (words_on new.old) work.old.book.now work.old.sums.now work.old.tallies.now }
    ensures same { Same new.new new.old }
    ensures same_2 { SameWork work.new work.old }
    ensures passed { Passed (kind_of terms.kind) terms.base (lent_of (kind_of terms.kind) (words_of old.now) work.old.book.now) (pass_over (kind_of terms.kind) terms.time terms.base (state_of (kind_of terms.kind) s (words_of old.now) work.old.book.now made)) (words_on new.new) work.new.book.now result }
{
    copy_points(old.points, new.points, s.points);
    let book = &mut *work.book;
    let stage = lists(
        terms.kind,
        old,
        new,
        book,
        s,
        terms.cells,
        made,
        terms.room,
        terms.base,
    )?;
    let lines = &mut *new.lines;
    let areas = &mut *new.areas;
    let volumes = &mut *new.volumes;
    let before = Vertices {
        positions: old.positions,
        marks: old.marks,
        count: s.vertices,
    };
    let pairs = NewPairs {
        book,
        start: made,
        new: stage.made - made,
    };
    let after = Lists {
        lines: ElementList {
            words: lines,
            count: stage.sizes.lines,
        },
        areas: ElementList {
            words: areas,
            count: stage.sizes.areas,
        },
        volumes: ElementList {
            words: volumes,
            count: stage.sizes.volumes,
        },
    };
    pass_vertices(
        terms.kind,
        before,
        pairs,
        after,
        new.positions,
        new.marks,
        work.sums,
        work.tallies,
        terms.time,
    );
    Ok(stage)
}
