// A mesh in memory is refused by the first of 9, 5, 6, 7, 8, then 10 for the lists handed in, that is due.
ghost use Rattle.std.specs.Prelude.{◌≡◌, List, ℕ, length};
ghost use Rattle.geom.specs.Answers.{verdict_of, first_due};
ghost use Rattle.geom.specs.Kinds.{kind_of};
ghost use Rattle.geom.specs.Forms.{Numbers, form};
ghost use Rattle.geom.specs.Memory.{BenchIn, rows_of};
ghost use Rattle.geom.specs.Refusals.{Desk, marks_hold, numbers_hold, counts_hold, handed_in, refinement_verdict};
ghost use Rattle.judge.specs.Counts.{lengths_of};
ghost use Rattle.geom.specs.Lent.{words_of};
ghost use Rattle.judge.specs.Judged.{bench_in, Measured, Marked, Numbered};

use crate::counts::{
    Lengths, area_corners, benches_hold, cells, limits_hold, volume_corners, within,
};
use crate::words::{
    corners_hold, curves_hold, flags_hold, lengths_hold, parities_hold, parts_hold, points_hold,
    positions_hold, steps_hold,
};
use geom::answer::Sizes;
use geom::bench::Bench;
use geom::kind::Kind;
use geom::refusal::Refusal;

// 9: no list counts more entries than its lent cells, which the slices' lengths give, and the curves' lengths add up to the curve vertices.
pub fn counts_within(kind: Kind, sizes: Sizes, first: Lengths, curves: &[u32]) -> bool
    requires { first.curves ≡ length curves.now }
    ensures { (n : Numbers) (b : BenchIn (form n)) → lengths_of b ≡ first → b.curves ≡ curves.now → result ≡ counts_hold (kind_of kind) sizes b }
{
    if !within(sizes, cells(kind, first)) {
        return false;
    }
    lengths_hold(curves, sizes.curves, sizes.curve_vertices)
}

// The same of a bench.
pub fn counts_hold(kind: Kind, sizes: Sizes, bench: &Bench) -> bool
    ensures { (n : Numbers) (b : BenchIn (form n)) → lengths_of b ≡ lengths_of (words_of bench.now) → b.curves ≡ bench.now.curves.now → result ≡ counts_hold (kind_of kind) sizes b }
{
    counts_within(kind, sizes, Lengths::of(bench), bench.curves)
}

// 5: flag bytes and parities, those of a curve's steps too.
pub fn marks_hold(kind: Kind, sizes: Sizes, bench: &Bench) -> bool
    requires { Marked (kind_of kind) sizes (words_of bench.now) }
    ensures { (n : Numbers) (positions : List (form n).Coordinate) (points : List ℕ) → result ≡ marks_hold (rows_of (kind_of kind) sizes (bench_in (form n) positions bench.now.marks.now points bench.now.lines.now bench.now.areas.now bench.now.volumes.now bench.now.curves.now bench.now.steps.now)) }
{
    if !flags_hold(bench.marks, sizes.vertices) {
        return false;
    }
    if !parities_hold(bench.lines, 2, sizes.lines) {
        return false;
    }
    if !parities_hold(bench.areas, area_corners(kind), sizes.areas) {
        return false;
    }
    if !parities_hold(bench.volumes, volume_corners(kind), sizes.volumes) {
        return false;
    }
    parts_hold(
        bench.curves,
        sizes.curves,
        bench.steps,
        sizes.curve_vertices,
    )
}

// 7: vertex numbers below the count.
pub fn numbers_hold(kind: Kind, sizes: Sizes, bench: &Bench) -> bool
    requires { Numbered (kind_of kind) sizes (words_of bench.now) }
    ensures { (n : Numbers) (positions : List (form n).Coordinate) (marks curves : List ℕ) → result ≡ numbers_hold sizes.vertices (rows_of (kind_of kind) sizes (bench_in (form n) positions marks bench.now.points.now bench.now.lines.now bench.now.areas.now bench.now.volumes.now curves bench.now.steps.now)) }
{
    let count = sizes.vertices;
    if !points_hold(bench.points, sizes.points, count) {
        return false;
    }
    if !corners_hold(bench.lines, 2, sizes.lines, count) {
        return false;
    }
    if !corners_hold(bench.areas, area_corners(kind), sizes.areas, count) {
        return false;
    }
    if !corners_hold(bench.volumes, volume_corners(kind), sizes.volumes, count) {
        return false;
    }
    steps_hold(bench.steps, sizes.curve_vertices, count)
}

// The refusal that is due for a mesh in memory: any words, any sizes, slices of any lengths. What an entry asks beyond this at 9 and at 5 is
// told: `nine` and `five` say whether it holds.
pub fn handed_in(
    kind: Kind,
    sizes: Sizes,
    bench: &Bench,
    nine: bool,
    five: bool,
) -> Result<(), Refusal>
    ensures { verdict_of result ≡ first_due (handed_in nine five (kind_of kind) sizes (words_of bench.now)) }
{
    if !counts_hold(kind, sizes, bench) {
        return Err(Refusal::Count);
    }
    if !nine {
        return Err(Refusal::Count);
    }
    if !marks_hold(kind, sizes, bench) {
        return Err(Refusal::Mark);
    }
    if !five {
        return Err(Refusal::Mark);
    }
    if !positions_hold(bench.positions, sizes.vertices) {
        return Err(Refusal::Coordinate);
    }
    if !numbers_hold(kind, sizes, bench) {
        return Err(Refusal::Number);
    }
    if !curves_hold(bench.curves, sizes.curves) {
        return Err(Refusal::Curve);
    }
    if !limits_hold(sizes) {
        return Err(Refusal::Room);
    }
    Ok(())
}

// The refusal that is due before the first pass of a refinement, at depth 0 too. The slices are those of the first bench; of the second bench
// and of smoothing's cells the lengths are enough.
pub fn judge(
    kind: Kind,
    sizes: Sizes,
    bench: &Bench,
    second: Lengths,
    sums: usize,
    tallies: usize,
    time: u8,
) -> Result<(), Refusal>
    ensures { (d : Desk) → d.first ≡ words_of bench.now → Measured d second sums tallies → verdict_of result ≡ refinement_verdict (kind_of kind) sizes d time }
{
    let nine = benches_hold(kind, Lengths::of(bench), second, sums, tallies);
    handed_in(kind, sizes, bench, nine, time <= 1)
}
