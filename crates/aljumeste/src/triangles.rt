// The triangulation, as other languages link it. Any words in any slices of any lengths, any sizes: every call is
// answered.
ghost use Rattle.judge.specs.Judged.{bench};
ghost use Rattle.triangulation.specs.Entry.{cuts, Triangulates};
ghost use Rattle.told.specs.Told.{sizes_from, outcome_from};

use geom::bench::Bench;
use told::words::{stated, tell_sizes};
use triangulation::triangulate;

// Cubes cut into simplices: the words of one bench and the sizes handed in, and the lists lent for triangles, 4 words a cell, and tetrahedra, 5
// words a cell. Answers 0 when finished, else the refusal's number; `answer` is left with the sizes of the mesh that the caller has then.
#[unsafe(no_mangle)]
pub extern "C" fn aljumeste_triangulate(
    positions: &[f32],
    marks: &[u32],
    points: &[u32],
    lines: &[u32],
    areas: &[u32],
    volumes: &[u32],
    curves: &[u32],
    steps: &[u32],
    sizes: &[usize; 7],
    triangles: &mut [u32],
    tetrahedra: &mut [u32],
    answer: &mut [usize; 7],
) -> u8
    ensures { Triangulates (sizes_from 0 sizes.now) (bench positions.now marks.now points.now lines.now areas.now volumes.now curves.now steps.now) (cuts triangles.old tetrahedra.old) (record { outcome = outcome_from result answer.new; out = cuts triangles.new tetrahedra.new }) }
{
    let bench = Bench {
        positions,
        marks,
        points,
        lines,
        areas,
        volumes,
        curves,
        steps,
    };
    let a = triangulate(stated(sizes), &bench, triangles, tetrahedra);
    tell_sizes(a, answer)
}
