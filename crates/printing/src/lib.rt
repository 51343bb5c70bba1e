// A mesh on the program's desk is refined and listed.
#![tactic(auto)]

ghost use Rattle.std.specs.Prelude.{◌≡◌, true, List, ℕ, eqb};
ghost use Rattle.geom.specs.Kinds.{kind_of};
ghost use Rattle.geom.specs.Lent.{words_of, words_on};
ghost use Rattle.geom.specs.Memory.{rows_of, mesh_of};
ghost use Rattle.geom.specs.Refinement.{within, run};
ghost use Rattle.geom.specs.Refusals.{side};
ghost use Rattle.geom.specs.Sheet.{SHEET_CELLS, SHEET_LENT, printed};
ghost use Rattle.listing.specs.Printed.{Printed, listed, with_marks, Stated};
ghost use Rattle.desk.specs.Desk.{Handed};

use desk::BOOK;
use geom::answer::Sizes;
use geom::bench::{Bench, BenchMut, Work};
use geom::kind::Kind;
use judge::counts::{area_corners, volume_corners};
use left::left;
use listing::{listing, refusal};
use subdivision::subdivide;

// The listing of the mesh that the last whole pass left: of each list the part that the caller is handed.
fn show(
    kind: Kind,
    passes: u8,
    sizes: Sizes,
    first: &Bench,
    second: &Bench,
    out: &mut [u8],
) -> usize
    requires stated { Stated passes (kind_of kind) sizes (side passes (words_of first.now) (words_of second.now)) out.old }
    requires sizes_value { within sizes SHEET_CELLS ≡ true }
    ensures { (marks : List ℕ) → Printed (listed passes (kind_of kind) sizes (with_marks marks (side passes (words_of first.now) (words_of second.now)))) out.old out.new result }
{
    let area = area_corners(kind) + 1;
    let volume = volume_corners(kind) + 1;
    let bench = Bench {
        positions: left(
            first.positions,
            second.positions,
            passes,
            4 * sizes.vertices,
        ),
        marks: left(first.marks, second.marks, passes, 3 * sizes.vertices),
        points: left(first.points, second.points, passes, sizes.points),
        lines: left(first.lines, second.lines, passes, 3 * sizes.lines),
        areas: left(first.areas, second.areas, passes, area * sizes.areas),
        volumes: left(
            first.volumes,
            second.volumes,
            passes,
            volume * sizes.volumes,
        ),
        curves: left(first.curves, second.curves, passes, 2 * sizes.curves),
        steps: left(first.steps, second.steps, passes, 2 * sizes.curve_vertices),
    };
    listing(passes, kind, sizes, &bench, out)
}

// The mesh on the first bench, refined to the depth and listed; or only the refusal.
pub fn refined(
    kind: Kind,
    sizes: Sizes,
    depth: u8,
    time: u8,
    mut first: BenchMut,
    mut second: BenchMut,
    out: &mut [u8],
) -> usize
    requires { Handed (kind_of kind) sizes time (words_on first) (words_on second) out.old }
    ensures { Printed (printed (run (kind_of kind) (eqb time 1) SHEET_LENT depth (mesh_of (rows_of (kind_of kind) sizes (words_on first.entry))))) out.old out.new result }
{
    let mut book = [0; BOOK];
    let mut sums = [0.0; 4096];
    let mut tallies = [0; 2048];
    let mut work = Work {
        book: &mut book,
        sums: &mut sums,
        tallies: &mut tallies,
    };
    let answer = subdivide(kind, &mut first, &mut second, &mut work, sizes, depth, time);
    let ended = answer.ended;
    match ended {
        Ok(()) => show(
            kind,
            answer.passes,
            answer.sizes,
            &first.read(),
            &second.read(),
            out,
        ),
        Err(why) => refusal(u8::from(why), answer.passes, out),
    }
}
