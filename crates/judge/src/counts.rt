// Refusals 9 and 10: counts against lent cells and the limit.
ghost use Rattle.std.specs.Prelude.{◌≡◌};
ghost use Rattle.geom.specs.Kinds.{kind_of};
ghost use Rattle.geom.specs.Memory.{area_corners, volume_corners};
ghost use Rattle.geom.specs.Refinement as Refinement;
ghost use Rattle.judge.specs.Counts.{cells_of, equal_of, benches_of, lengths_of};
ghost use Rattle.geom.specs.Lent.{words_of};

use geom::answer::Sizes;
use geom::bench::Bench;
use geom::kind::Kind;

// The limit of each list.
pub const LIMIT: usize = 1_048_576;

// How long the slices of a bench are.
#[derive(Clone, Copy, PartialEq, Eq)]
pub struct Lengths {
    pub positions: usize,
    pub marks: usize,
    pub points: usize,
    pub lines: usize,
    pub areas: usize,
    pub volumes: usize,
    pub curves: usize,
    pub curve_vertices: usize,
}

impl Lengths {
    pub fn of(bench: &Bench) -> Lengths
        ensures { result ≡ lengths_of (words_of bench.now) }
    {
        Lengths {
            positions: bench.positions.len(),
            marks: bench.marks.len(),
            points: bench.points.len(),
            lines: bench.lines.len(),
            areas: bench.areas.len(),
            volumes: bench.volumes.len(),
            curves: bench.curves.len(),
            curve_vertices: bench.steps.len(),
        }
    }
}

// How many corners an area has.
pub fn area_corners(kind: Kind) -> usize
    ensures { result ≡ area_corners (kind_of kind) }
{
    match kind {
        Kind::Cubes => 4,
        Kind::Simplices => 3,
    }
}

// How many corners a volume has.
pub fn volume_corners(kind: Kind) -> usize
    ensures { result ≡ volume_corners (kind_of kind) }
{
    match kind {
        Kind::Cubes => 8,
        Kind::Simplices => 4,
    }
}

// Lent cells: whole rows; of a list in two slices, the smaller number.
pub fn cells(kind: Kind, b: Lengths) -> Sizes
    ensures { result ≡ cells_of (kind_of kind) b }
{
    Sizes {
        vertices: (b.positions / 4).min(b.marks / 3),
        points: b.points,
        lines: b.lines / 3,
        areas: b.areas / (area_corners(kind) + 1),
        volumes: b.volumes / (volume_corners(kind) + 1),
        curves: b.curves / 2,
        curve_vertices: b.curve_vertices / 2,
    }
}

// Each count is at most another.
pub fn within(s: Sizes, t: Sizes) -> bool
    ensures { result ≡ Refinement.within s t }
{
    (s.vertices <= t.vertices)
        & (s.points <= t.points)
        & (s.lines <= t.lines)
        & (s.areas <= t.areas)
        & (s.volumes <= t.volumes)
        & (s.curves <= t.curves)
        & (s.curve_vertices <= t.curve_vertices)
}

// 10: no list handed in counts more entries than the limit.
pub fn limits_hold(s: Sizes) -> bool
    ensures { result ≡ Refinement.within s Refinement.LIMITS }
{
    let limits = Sizes {
        vertices: LIMIT,
        points: LIMIT,
        lines: LIMIT,
        areas: LIMIT,
        volumes: LIMIT,
        curves: LIMIT,
        curve_vertices: LIMIT,
    };
    within(s, limits)
}

// 9: a list's two benches are equal, slices of equal lengths, whatever the kind.
pub fn benches_equal(first: Lengths, second: Lengths) -> bool
    ensures { result ≡ equal_of first second }
{
    first == second
}

// 9: and smoothing's cells, of the sums as of the tallies, are as many as the vertices'.
pub fn benches_hold(
    kind: Kind,
    first: Lengths,
    second: Lengths,
    sums: usize,
    tallies: usize,
) -> bool
    ensures { result ≡ benches_of (kind_of kind) first second sums tallies }
{
    let equal = benches_equal(first, second);
    let lent = cells(kind, first);
    equal & (sums / 4 == lent.vertices) & (tallies / 2 == lent.vertices)
}
