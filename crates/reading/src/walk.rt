// One reader is set up over the file and walks all of it, in a straight line: a reader that was refused stays, the parts behind it are taken all the
// same, and what they come to is not asked, since the first refusal is the answer.
ghost use Rattle.std.specs.Prelude.{◌≡◌};
ghost use Rattle.reading.specs.Walk.{kind_for, lent_of, Walks};

use crate::judging::kind_byte;
use crate::part::Taken;
use crate::reader::Reader;
use geom::answer::Sizes;
use geom::kind::Kind;
use geom::refusal::Refusal;
use judge::counts::{Lengths, area_corners, cells, volume_corners};

// What the lists are judged against: the kind, and the lent cells of that kind.
#[derive(Clone, Copy)]
pub struct Lent {
    pub kind: Kind,
    pub cells: Sizes,
}

// What each part of a file came to.
#[derive(Clone, Copy)]
pub struct Walked {
    pub version: Taken,
    pub kind: Taken,
    pub vertices: Taken,
    pub points: Taken,
    pub lines: Taken,
    pub areas: Taken,
    pub volumes: Taken,
    pub curves: Taken,
    pub left: Taken,
}

// The kind that a byte says; where it says none the walk goes on with cubes.
pub fn kind_for(field: Result<u32, Refusal>) -> Kind
    ensures { result ≡ kind_for field }
{
    kind_byte(field).unwrap_or(Kind::Cubes)
}

// The lent cells of that kind.
pub fn lent_for(t: Taken, first: Lengths) -> Lent
    ensures { result ≡ lent_of t.field first }
{
    let kind = kind_for(t.field);
    Lent {
        kind,
        cells: cells(kind, first),
    }
}

// Version, kind, vertices, points, lines, areas, volumes, curves, each list with its count first, and the end. Vertex numbers are judged against the
// count of the vertices, or 0 where it was refused.
pub fn walk(file: &[u8], first: Lengths) -> Walked
    ensures { Walks (lent_of result.kind.field first) file.now result }
{
    let mut r = Reader::new(file, 0);
    let version = r.byte();
    let kind = r.byte();
    let lent = lent_for(kind, first);
    let cells = lent.cells;
    let vertices = r.vertices(cells.vertices);
    let count = vertices.n;
    let points = r.points(cells.points, count);
    let lines = r.lines(cells.lines, count);
    let areas = r.areas(lent.kind, cells.areas, count);
    let volumes = r.volumes(lent.kind, cells.volumes, count);
    let curves = r.curves(cells.curves, count, cells.curve_vertices);
    let left = r.end();
    Walked {
        version,
        kind,
        vertices,
        points,
        lines,
        areas,
        volumes,
        curves,
        left,
    }
}
