// A refined mesh in print, the simplices that cubes are cut into, and the normals of simplices.
ghost use Rattle.std.specs.Prelude.{◌<◌};

use crate::print::{rows, spaced};
use geom::answer::Sizes;
use geom::bench::Bench;
use geom::kind::Kind;
use geom::refusal::Refusal;
use normals3::compute_normals_3d;
use normals4::compute_normals_4d;
use std::io;
use std::io::Write;
use triangulation::triangulate;

pub fn refused<W: Write>(out: &mut W, why: Refusal) -> io::Result<()> {
    out.write_all(b" refused")?;
    spaced(out, u8::from(why) as usize)
}

// How something ended; answers whether it was finished.
pub fn end<W: Write>(out: &mut W, what: &[u8], ended: Result<(), Refusal>) -> io::Result<bool> {
    out.write_all(what)?;
    match ended {
        Ok(()) => {
            out.write_all(b" finished")?;
            Ok(true)
        }
        Err(why) => {
            refused(out, why)?;
            Ok(false)
        }
    }
}

// A mesh of either kind.
pub fn mesh<W: Write>(out: &mut W, kind: Kind, sizes: Sizes, bench: &Bench) -> io::Result<()> {
    rows(out, b"v", bench.positions, 4, sizes.vertices)?;
    rows(out, b"m", bench.marks, 3, sizes.vertices)?;
    rows(out, b"p", bench.points, 1, sizes.points)?;
    rows(out, b"l", bench.lines, 3, sizes.lines)?;
    rows(out, b"c", bench.curves, 2, sizes.curves)?;
    rows(out, b"w", bench.steps, 2, sizes.curve_vertices)?;
    match kind {
        Kind::Cubes => cubes(out, sizes, bench),
        Kind::Simplices => simplices(out, sizes, bench),
    }
}

// Squares and cubes, and the simplices that they are cut into.
fn cubes<W: Write>(out: &mut W, sizes: Sizes, bench: &Bench) -> io::Result<()> {
    rows(out, b"a", bench.areas, 5, sizes.areas)?;
    rows(out, b"s", bench.volumes, 9, sizes.volumes)?;
    let mut triangles = [0; 120];
    let mut tetrahedra = [0; 300];
    let answer = triangulate(sizes, bench, &mut triangles, &mut tetrahedra);
    if !end(out, b"\ntriangulation", answer.ended)? {
        return Ok(());
    }
    let cut = Bench {
        areas: &triangles,
        volumes: &tetrahedra,
        ..*bench
    };
    simplices(out, answer.sizes, &cut)
}

// Triangles and tetrahedra, and their normals in three dimensions and in four.
fn simplices<W: Write>(out: &mut W, sizes: Sizes, bench: &Bench) -> io::Result<()> {
    rows(out, b"a", bench.areas, 4, sizes.areas)?;
    rows(out, b"s", bench.volumes, 5, sizes.volumes)?;
    let mut normals = [0.0; 48];
    let three = compute_normals_3d(sizes, bench, &mut normals);
    show(out, three, 3, sizes.vertices, &normals)?;
    let four = compute_normals_4d(sizes, bench, &mut normals);
    show(out, four, 4, sizes.vertices, &normals)
}

// The normals of so many vertices, if they were written.
fn show<W: Write>(
    out: &mut W,
    ended: Result<(), Refusal>,
    width: usize,
    vertices: usize,
    normals: &[f32],
) -> io::Result<()>
    requires { 0 < width }
{
    if end(out, b"\nnormals", ended)? {
        rows(out, b"n", normals, width, vertices)?;
    }
    Ok(())
}
