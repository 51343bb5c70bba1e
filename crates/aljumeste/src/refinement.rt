// The refinements, as other languages link them. A slice crosses as its pointer and its length. Any words in any slices of any lengths, any
// sizes, any bytes: every call is answered.
ghost use Rattle.std.specs.Prelude.{◌≡◌};
ghost use Rattle.geom.specs.Book.{cubes, simplices};
ghost use Rattle.geom.specs.Kinds.{kind_of};
ghost use Rattle.geom.specs.Lent.{desk_of, Same, SameWork};
ghost use Rattle.judge.specs.Judged.{bench};
ghost use Rattle.subdivision.specs.Entry.{desk, Refines};
ghost use Rattle.told.specs.Told.{sizes_from, told_of};

use geom::bench::{BenchMut, Work};
use geom::kind::Kind;
use subdivision::subdivide;
use told::words::{stated, tell};

// The refinement of the mesh on the first bench, with sizes and answer as words.
fn refine(
    kind: Kind,
    first: &mut BenchMut,
    second: &mut BenchMut,
    work: &mut Work,
    sizes: &[usize; 7],
    depth: u8,
    smooth_time: u8,
    answer: &mut [usize; 8],
) -> u8
    ensures same { Same first.new first.old }
    ensures same_2 { Same second.new second.old }
    ensures same_3 { SameWork work.new work.old }
    ensures refines { Refines (kind_of kind) (sizes_from 0 sizes.now) (desk_of first.old second.old work.old) (desk_of first.new second.new work.new) depth smooth_time (told_of result answer.new) }
{
    let refined = subdivide(kind, first, second, work, stated(sizes), depth, smooth_time);
    tell(refined, answer)
}

// The refinement of simplices: the words of two benches, of the book and of smoothing, the sizes handed in, the depth and the smooth_time
// byte. Answers 0 when finished, else the refusal's number; `answer` is left with the passes, then the sizes of the mesh left.
#[unsafe(no_mangle)]
pub extern "C" fn aljumeste_subdivide_simplices(
    positions: &mut [f32],
    marks: &mut [u32],
    points: &mut [u32],
    lines: &mut [u32],
    areas: &mut [u32],
    volumes: &mut [u32],
    curves: &mut [u32],
    steps: &mut [u32],
    other_positions: &mut [f32],
    other_marks: &mut [u32],
    other_points: &mut [u32],
    other_lines: &mut [u32],
    other_areas: &mut [u32],
    other_volumes: &mut [u32],
    other_curves: &mut [u32],
    other_steps: &mut [u32],
    book: &mut [u32],
    sums: &mut [f32],
    tallies: &mut [u32],
    sizes: &[usize; 7],
    depth: u8,
    smooth_time: u8,
    answer: &mut [usize; 8],
) -> u8
    ensures { Refines simplices (sizes_from 0 sizes.now) (desk (bench positions.old marks.old points.old lines.old areas.old volumes.old curves.old steps.old) (bench other_positions.old other_marks.old other_points.old other_lines.old other_areas.old other_volumes.old other_curves.old other_steps.old) book.old sums.old tallies.old) (desk (bench positions.new marks.new points.new lines.new areas.new volumes.new curves.new steps.new) (bench other_positions.new other_marks.new other_points.new other_lines.new other_areas.new other_volumes.new other_curves.new other_steps.new) book.new sums.new tallies.new) depth smooth_time (told_of result answer.new) }
{
    let mut first = BenchMut {
        positions,
        marks,
        points,
        lines,
        areas,
        volumes,
        curves,
        steps,
    };
    let mut second = BenchMut {
        positions: other_positions,
        marks: other_marks,
        points: other_points,
        lines: other_lines,
        areas: other_areas,
        volumes: other_volumes,
        curves: other_curves,
        steps: other_steps,
    };
    let mut work = Work {
        book,
        sums,
        tallies,
    };
    refine(
        Kind::Simplices,
        &mut first,
        &mut second,
        &mut work,
        sizes,
        depth,
        smooth_time,
        answer,
    )
}

// The refinement of cubes, on the same terms.
#[unsafe(no_mangle)]
pub extern "C" fn aljumeste_subdivide_cubes(
    positions: &mut [f32],
    marks: &mut [u32],
    points: &mut [u32],
    lines: &mut [u32],
    areas: &mut [u32],
    volumes: &mut [u32],
    curves: &mut [u32],
    steps: &mut [u32],
    other_positions: &mut [f32],
    other_marks: &mut [u32],
    other_points: &mut [u32],
    other_lines: &mut [u32],
    other_areas: &mut [u32],
    other_volumes: &mut [u32],
    other_curves: &mut [u32],
    other_steps: &mut [u32],
    book: &mut [u32],
    sums: &mut [f32],
    tallies: &mut [u32],
    sizes: &[usize; 7],
    depth: u8,
    smooth_time: u8,
    answer: &mut [usize; 8],
) -> u8
    ensures { Refines cubes (sizes_from 0 sizes.now) (desk (bench positions.old marks.old points.old lines.old areas.old volumes.old curves.old steps.old) (bench other_positions.old other_marks.old other_points.old other_lines.old other_areas.old other_volumes.old other_curves.old other_steps.old) book.old sums.old tallies.old) (desk (bench positions.new marks.new points.new lines.new areas.new volumes.new curves.new steps.new) (bench other_positions.new other_marks.new other_points.new other_lines.new other_areas.new other_volumes.new other_curves.new other_steps.new) book.new sums.new tallies.new) depth smooth_time (told_of result answer.new) }
{
    let mut first = BenchMut {
        positions,
        marks,
        points,
        lines,
        areas,
        volumes,
        curves,
        steps,
    };
    let mut second = BenchMut {
        positions: other_positions,
        marks: other_marks,
        points: other_points,
        lines: other_lines,
        areas: other_areas,
        volumes: other_volumes,
        curves: other_curves,
        steps: other_steps,
    };
    let mut work = Work {
        book,
        sums,
        tallies,
    };
    refine(
        Kind::Cubes,
        &mut first,
        &mut second,
        &mut work,
        sizes,
        depth,
        smooth_time,
        answer,
    )
}
