// Reading a file, as other languages link it. Any bytes, any words in any slices of any lengths: every call is answered.
ghost use Rattle.geom.specs.File.{loaded};
ghost use Rattle.judge.specs.Judged.{bench};
ghost use Rattle.told.specs.Told.{Reads};

use figure::load;
use geom::bench::{Bench, BenchMut};
use told::opening::tell_reading;

// Reads a file onto the first of two benches. Answers 0 where a mesh was read, else the refusal's number; `answer` is left with the kind, 0
// cubes or 1 simplices, and the sizes, all 0 after a refusal.
#[unsafe(no_mangle)]
pub extern "C" fn aljumeste_read(
    file: &[u8],
    positions: &mut [f32],
    marks: &mut [u32],
    points: &mut [u32],
    lines: &mut [u32],
    areas: &mut [u32],
    volumes: &mut [u32],
    curves: &mut [u32],
    steps: &mut [u32],
    other_positions: &[f32],
    other_marks: &[u32],
    other_points: &[u32],
    other_lines: &[u32],
    other_areas: &[u32],
    other_volumes: &[u32],
    other_curves: &[u32],
    other_steps: &[u32],
    answer: &mut [usize; 8],
) -> u8
    ensures { Reads result answer.new (bench positions.new marks.new points.new lines.new areas.new volumes.new curves.new steps.new) (loaded (bench positions.old marks.old points.old lines.old areas.old volumes.old curves.old steps.old) (bench other_positions.now other_marks.now other_points.now other_lines.now other_areas.now other_volumes.now other_curves.now other_steps.now) file.now) }
{
    let mut first = BenchMut {
        positions,
        marks,
        points,
        lines,
        areas,
        volumes,
        curves,
        steps,
    };
    let second = Bench {
        positions: other_positions,
        marks: other_marks,
        points: other_points,
        lines: other_lines,
        areas: other_areas,
        volumes: other_volumes,
        curves: other_curves,
        steps: other_steps,
    };
    tell_reading(load(file, &mut first, &second), answer)
}
