// What a file is found to be, from what each of its parts came to: version and kind, the first refusal of the lists, and that nothing is left over.
// Nothing is written.
ghost use Rattle.std.specs.Prelude.{◌≡◌};
ghost use Rattle.geom.specs.Book as Book;
ghost use Rattle.judge.specs.Counts.{cells_of};
ghost use Rattle.reading.specs.Places.{Finds};
ghost use Rattle.reading.specs.Picked.{kind_in, header_of, refusal_of, value_of, sizes_in, lists_in, found_of};

use crate::part::Taken;
use crate::walk::{Walked, walk};
use geom::answer::Sizes;
use geom::kind::Kind;
use geom::refusal::Refusal;
use judge::counts::Lengths;

// The mesh that a file is found to be: its kind, and the sizes of its lists.
#[derive(Clone, Copy)]
pub struct Mesh {
    pub kind: Kind,
    pub sizes: Sizes,
}

// 2: the kind byte, 0 cubes, 1 simplices.
pub fn kind_byte(field: Result<u32, Refusal>) -> Result<Kind, Refusal>
    ensures { result ≡ kind_in field }
{
    match field? {
        0 => Ok(Kind::Cubes),
        1 => Ok(Kind::Simplices),
        _ => Err(Refusal::Kind),
    }
}

// 1: the version byte; then the kind. The reader has read both, and the version is judged first.
pub fn header(first: Result<u32, Refusal>, second: Result<u32, Refusal>) -> Result<Kind, Refusal>
    ensures { result ≡ header_of first second }
{
    if first? != 1 {
        return Err(Refusal::Version);
    }
    kind_byte(second)
}

// The first refusal of the lists; 4 bytes left over comes last.
#[tactic(auto, unfolding(crate::specs::Picked::refusal_of))]
pub fn refusal(w: Walked) -> Result<(), Refusal>
    ensures { result ≡ refusal_of w }
{
    w.vertices.field?;
    w.points.field?;
    w.lines.field?;
    w.areas.field?;
    w.volumes.field?;
    w.curves.field?;
    w.left.field?;
    Ok(())
}

// The number that was read.
pub fn value_of(t: Taken) -> usize
    ensures { result ≡ value_of t.field }
{
    t.field.unwrap_or(0) as usize
}

// How many entries each list has.
#[tactic(auto, unfolding(crate::specs::Picked::sizes_in))]
pub fn sizes_in(w: Walked) -> Sizes
    ensures { result ≡ sizes_in w }
{
    Sizes {
        vertices: w.vertices.n,
        points: w.points.n,
        lines: w.lines.n,
        areas: w.areas.n,
        volumes: w.volumes.n,
        curves: w.curves.n,
        curve_vertices: value_of(w.curves),
    }
}

// The lists of a mesh of a kind.
pub fn lists_of(kind: Kind, w: Walked) -> Result<Mesh, Refusal>
    ensures { result ≡ lists_in (refusal_of w) kind w }
{
    refusal(w)?;
    Ok(Mesh {
        kind,
        sizes: sizes_in(w),
    })
}

// What the walk found.
pub fn found_by(w: Walked) -> Result<Mesh, Refusal>
    ensures { result ≡ found_of w }
{
    let kind = header(w.version.field, w.kind.field)?;
    lists_of(kind, w)
}

// A whole file, against the lent cells of its kind.
pub fn figure(file: &[u8], first: Lengths) -> Result<Mesh, Refusal>
    ensures { Finds result (λ (kind : Book.Kind). cells_of kind first) file.now }
{
    found_by(walk(file, first))
}
