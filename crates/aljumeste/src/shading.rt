// The normals, as other languages link them. Any words in any slices of any lengths, any sizes: every call is
// answered.
ghost use Rattle.geom.specs.Turning.{three, four, Shades};
ghost use Rattle.judge.specs.Judged.{bench};
ghost use Rattle.told.specs.Told.{sizes_from, verdict_by};

use geom::bench::Bench;
use normals3::compute_normals_3d;
use normals4::compute_normals_4d;
use told::words::{number, stated};

// The normals of simplices in three dimensions: the words of one bench and the sizes handed in, and the list lent for normals, 3 words a vertex.
// Answers 0 when finished, else the refusal's number.
#[unsafe(no_mangle)]
pub extern "C" fn aljumeste_compute_normals_3d(
    positions: &[f32],
    marks: &[u32],
    points: &[u32],
    lines: &[u32],
    areas: &[u32],
    volumes: &[u32],
    curves: &[u32],
    steps: &[u32],
    sizes: &[usize; 7],
    normals: &mut [f32],
) -> u8
    ensures { Shades three (sizes_from 0 sizes.now) (bench positions.now marks.now points.now lines.now areas.now volumes.now curves.now steps.now) normals.old (record { verdict = verdict_by result; out = normals.new }) }
{
    let bench = Bench {
        positions,
        marks,
        points,
        lines,
        areas,
        volumes,
        curves,
        steps,
    };
    number(compute_normals_3d(stated(sizes), &bench, normals))
}

// In four dimensions, on the same terms, with 4 words a vertex.
#[unsafe(no_mangle)]
pub extern "C" fn aljumeste_compute_normals_4d(
    positions: &[f32],
    marks: &[u32],
    points: &[u32],
    lines: &[u32],
    areas: &[u32],
    volumes: &[u32],
    curves: &[u32],
    steps: &[u32],
    sizes: &[usize; 7],
    normals: &mut [f32],
) -> u8
    ensures { Shades four (sizes_from 0 sizes.now) (bench positions.now marks.now points.now lines.now areas.now volumes.now curves.now steps.now) normals.old (record { verdict = verdict_by result; out = normals.new }) }
{
    let bench = Bench {
        positions,
        marks,
        points,
        lines,
        areas,
        volumes,
        curves,
        steps,
    };
    number(compute_normals_4d(stated(sizes), &bench, normals))
}
