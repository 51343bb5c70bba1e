// The refinement of a mesh of either kind in memory, at any depth. Any words in any slices of any lengths, any sizes, any bytes.
#![tactic(auto)]

ghost use Rattle.std.specs.Prelude.{◌≡◌, ◌-◌, min};
ghost use Rattle.geom.specs.Answers.{told};
ghost use Rattle.geom.specs.Kinds.{kind_of};
ghost use Rattle.geom.specs.Lent.{desk_of, Same, SameWork};
ghost use Rattle.geom.specs.Refinement as Refinement;
ghost use Rattle.pass.specs.Benches.{capped};
ghost use Rattle.subdivision.specs.Entry.{Refines};

use geom::answer::{Refined, Sizes};
use geom::bench::{BenchMut, Work};
use geom::kind::Kind;
use index::CELL;
use judge::counts::{LIMIT, Lengths, cells};
use judge::mesh::judge;
use pass::Terms;
use run::run;

// How many entries each list may have: its lent cells, and no more than the limit.
fn caps(lent: Sizes) -> Sizes
    ensures { result ≡ capped lent }
{
    Sizes {
        vertices: lent.vertices.min(LIMIT),
        points: lent.points.min(LIMIT),
        lines: lent.lines.min(LIMIT),
        areas: lent.areas.min(LIMIT),
        volumes: lent.volumes.min(LIMIT),
        curves: lent.curves.min(LIMIT),
        curve_vertices: lent.curve_vertices.min(LIMIT),
    }
}

// How many entries the book may have: what its cells, the vertices' cells and the limit leave.
fn room_for(book: usize, vertices: usize, base: usize) -> usize
    ensures { result ≡ min book (min vertices Refinement.LIMIT - base) }
{
    book.min(vertices.min(LIMIT).saturating_sub(base))
}

// The refinement: judged first, and if refused nothing changes; then passes to the depth, or to the first that doesn't fit.
pub fn subdivide(
    kind: Kind,
    first: &mut BenchMut,
    second: &mut BenchMut,
    work: &mut Work,
    sizes: Sizes,
    depth: u8,
    smooth_time: u8,
) -> Refined
    ensures same { Same first.new first.old }
    ensures same_2 { Same second.new second.old }
    ensures same_3 { SameWork work.new work.old }
    ensures refines { Refines (kind_of kind) sizes (desk_of first.old second.old work.old) (desk_of first.new second.new work.new) depth smooth_time (told result) }
{
    let book = work.book.len() / CELL;
    let sums = work.sums.len();
    let tallies = work.tallies.len();
    let others = Lengths::of(&second.read());
    let bench = first.read();
    let lengths = Lengths::of(&bench);
    let ended = judge(kind, sizes, &bench, others, sums, tallies, smooth_time);
    let Ok(()) = ended else {
        return Refined {
            passes: 0,
            sizes,
            ended,
        };
    };
    let lent = cells(kind, lengths);
    let terms = Terms {
        kind,
        cells: caps(lent),
        room: room_for(book, lent.vertices, sizes.vertices),
        base: sizes.vertices,
        time: smooth_time == 1,
    };
    run(terms, first, second, work, sizes, depth)
}
