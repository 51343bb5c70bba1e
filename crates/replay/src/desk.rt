// The desk of the program: cells for a mesh on two benches, for the book and for smoothing. A file is read onto it and refined.
use crate::mesh::{end, mesh, refused};
use crate::print::spaced;
use figure::load;
use geom::answer::Sizes;
use geom::bench::{BenchMut, Work};
use geom::kind::Kind;
use std::io;
use std::io::Write;
use subdivision::subdivide;

// The cells of a bench, so few that small meshes are refused for each of them: 32 vertices, 12 points, 16 lines, 16 squares or 20 triangles, 20 cubes
// or 36 tetrahedra, and 12 curves with 18 vertices. One struct for these and for the sizes of other programs would take eight const parameters.
#[derive(Drop)]
struct Cells {
    positions: [f32; 128],
    marks: [u32; 96],
    points: [u32; 12],
    lines: [u32; 48],
    areas: [u32; 80],
    volumes: [u32; 180],
    curves: [u32; 24],
    steps: [u32; 36],
}

impl Cells {
    fn blank() -> Self {
        Cells {
            positions: [0.0; 128],
            marks: [0; 96],
            points: [0; 12],
            lines: [0; 48],
            areas: [0; 80],
            volumes: [0; 180],
            curves: [0; 24],
            steps: [0; 36],
        }
    }
}

// A file on a fresh desk, whose book has 24 entries.
pub fn on_desk<W: Write>(out: &mut W, depth: u8, time: u8, file: &[u8]) -> io::Result<()> {
    let mut cells = Cells::blank();
    let mut other_cells = Cells::blank();
    let mut book = [0; 144];
    let mut sums = [0.0; 128];
    let mut tallies = [0; 64];
    let mut first = BenchMut {
        positions: &mut cells.positions,
        marks: &mut cells.marks,
        points: &mut cells.points,
        lines: &mut cells.lines,
        areas: &mut cells.areas,
        volumes: &mut cells.volumes,
        curves: &mut cells.curves,
        steps: &mut cells.steps,
    };
    let mut second = BenchMut {
        positions: &mut other_cells.positions,
        marks: &mut other_cells.marks,
        points: &mut other_cells.points,
        lines: &mut other_cells.lines,
        areas: &mut other_cells.areas,
        volumes: &mut other_cells.volumes,
        curves: &mut other_cells.curves,
        steps: &mut other_cells.steps,
    };
    let mut work = Work {
        book: &mut book,
        sums: &mut sums,
        tallies: &mut tallies,
    };
    replayed(out, depth, time, file, &mut first, &mut second, &mut work)
}

// A file on a desk, refined, and the mesh that is left.
fn replayed<W: Write>(
    out: &mut W,
    depth: u8,
    time: u8,
    file: &[u8],
    first: &mut BenchMut,
    second: &mut BenchMut,
    work: &mut Work,
) -> io::Result<()> {
    let reading = load(file, first, &second.read());
    let opened = reading.opened;
    match opened {
        Ok(kind) => refine(out, kind, reading.sizes, depth, time, first, second, work),
        Err(why) => {
            out.write_all(b"\nfile")?;
            refused(out, why)
        }
    }
}

// The mesh on the first bench refined, and what is left of it.
fn refine<W: Write>(
    out: &mut W,
    kind: Kind,
    sizes: Sizes,
    depth: u8,
    time: u8,
    first: &mut BenchMut,
    second: &mut BenchMut,
    work: &mut Work,
) -> io::Result<()> {
    let answer = subdivide(kind, first, second, work, sizes, depth, time);
    end(out, b"\nrefinement", answer.ended)?;
    out.write_all(b" after")?;
    spaced(out, answer.passes as usize)?;
    if answer.passes % 2 == 0 {
        mesh(out, kind, answer.sizes, &first.read())
    } else {
        mesh(out, kind, answer.sizes, &second.read())
    }
}
