// Runs the entry of the refinement at the limit, 1,048,576 entries in each list, and one entry above it.
//
// The list is that of the points, which takes the fewest words: one an entry, on each of the two benches. Both together are 8,388,616 bytes, 8
// more than the usual limit of a stack, so they are on the heap.
//
// `stdout` has what it must print, and every line of it follows from the order of refusals:
// - "1,048,576 entries in each list": so many are accepted, and P1 says of depth 0: no pass, the mesh unchanged;
// - "10 for the lists handed in", "at depth 0 too": one more is refused before any pass is begun;
// - "9, 5, 6, 7, 8, then 10 for the lists handed in": a curve without vertices beside it is 8, which comes first.
#![tactic(auto)]

ghost use Rattle.std.specs.Prelude.{◌≡◌, IfOk, vec_len};

use geom::answer::{Refined, Sizes};
use geom::bench::{BenchMut, Work};
use geom::kind::Kind;
use std::alloc::{AllocError, Global};
use std::io;
use subdivision::subdivide;

fn main(rt: HostRuntime) -> io::Result<()> {
    let mut points = cells(rt.alloc())?;
    let mut other_points = cells(rt.alloc())?;
    show(
        &rt,
        at_depth_0(&mut points, &mut other_points, 1_048_576, 0),
    )?;
    show(
        &rt,
        at_depth_0(&mut points, &mut other_points, 1_048_577, 0),
    )?;
    show(
        &rt,
        at_depth_0(&mut points, &mut other_points, 1_048_577, 1),
    )
}

// One cell more than the limit; nothing is left where memory runs out.
fn cells(alloc: Global) -> Result<Vec<u32>, AllocError>
    ensures { IfOk result (λ v. vec_len v ≡ 1_048_577) }
{
    Ok(vec![in alloc; 0; 1_048_577]?)
}

// The cells of one entry in each list of a bench but that of the points.
#[derive(Drop)]
struct OneEach {
    positions: [f32; 4],
    marks: [u32; 3],
    lines: [u32; 1],
    areas: [u32; 1],
    volumes: [u32; 1],
    curves: [u32; 2],
    steps: [u32; 1],
}

impl OneEach {
    fn blank() -> Self {
        OneEach {
            positions: [0.0; 4],
            marks: [0; 3],
            lines: [0; 1],
            areas: [0; 1],
            volumes: [0; 1],
            curves: [0; 2],
            steps: [0; 1],
        }
    }
}

// The answer for a vertex at the origin and so many points, all of them that vertex, with so many curves without vertices.
fn at_depth_0(
    points: &mut [u32],
    other_points: &mut [u32],
    count: usize,
    curve_count: usize,
) -> Refined {
    let mut one = OneEach::blank();
    let mut other = OneEach::blank();
    let first = BenchMut {
        positions: &mut one.positions,
        marks: &mut one.marks,
        points,
        lines: &mut one.lines,
        areas: &mut one.areas,
        volumes: &mut one.volumes,
        curves: &mut one.curves,
        steps: &mut one.steps,
    };
    let second = BenchMut {
        positions: &mut other.positions,
        marks: &mut other.marks,
        points: other_points,
        lines: &mut other.lines,
        areas: &mut other.areas,
        volumes: &mut other.volumes,
        curves: &mut other.curves,
        steps: &mut other.steps,
    };
    refined(first, second, count, curve_count)
}

// The same on two benches.
fn refined(mut first: BenchMut, mut second: BenchMut, count: usize, curve_count: usize) -> Refined {
    let mut book = [0; 1];
    let mut sums = [0.0; 4];
    let mut tallies = [0; 2];
    let mut work = Work {
        book: &mut book,
        sums: &mut sums,
        tallies: &mut tallies,
    };
    let sizes = Sizes {
        vertices: 1,
        points: count,
        lines: 0,
        areas: 0,
        volumes: 0,
        curves: curve_count,
        curve_vertices: 0,
    };
    subdivide(
        Kind::Simplices,
        &mut first,
        &mut second,
        &mut work,
        sizes,
        0,
        0,
    )
}

// How it ended, after how many whole passes, and the points that are left.
fn show(rt: &impl Print, answer: Refined) -> io::Result<()> {
    let ended = answer.ended;
    match ended {
        Ok(()) => print!(rt; "finished")?,
        Err(why) => print!(rt; "refused {}", u8::from(why))?,
    }
    println!(rt; " after {}: points {}", answer.passes, answer.sizes.points)
}
