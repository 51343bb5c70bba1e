// The old vertices stay, and one is made for each new pair of the book.
// The bench that is written goes as two slices: smoothing writes its positions while it reads its marks, and that has no proof where one struct
// holds both.
ghost use Rattle.std.specs.Prelude.{◌≡◌, [], ◌∷◌, map, ◌+◌};
ghost use Rattle.geom.specs.Vertices.{pair_vertex};
ghost use Rattle.geom.specs.Smoothing.{with_midpoints};
ghost use Rattle.vertices.specs.Cells.{vertices_of, Row, Stand, Ends, Pairs, pair_row, pairs_from, Laid, Over};

use crate::cells::{midpoint_vertex, put_marks, put_point, vertex_at};
use crate::lists::{NewPairs, Vertices};
use geom::vertex::Vertex;
use geom::words::{copy, word};

// A vertex is written to row i.
pub fn put_vertex(out: &mut [f32], notes: &mut [u32], i: usize, v: Vertex)
    requires { Row out.old notes.old i }
    ensures { Laid out.old notes.old i (v ∷ []) out.new notes.new }
{
    let p = v.position;
    put_point(out, i, p);
    put_marks(notes, i, v);
}

// The old vertices are copied to the other bench: all words of their positions, then all words of their marks.
pub fn copy_vertices(old: Vertices, out: &mut [f32], notes: &mut [u32])
    requires stand { Stand old.positions.now old.marks.now old.count }
    requires stand_2 { Stand out.old notes.old old.count }
    ensures { Laid out.old notes.old 0 (vertices_of old.entry.positions.now old.entry.marks.now old.entry.count) out.new notes.new }
{
    copy(old.positions, out, 4 * old.count);
    copy(old.marks, notes, 3 * old.count);
}

// The vertex that entry e of the book makes.
pub fn pair_vertex(old: Vertices, book: &[u32], e: usize) -> Vertex
    requires stand { Stand old.positions.now old.marks.now old.count }
    requires ends { Ends book.now e old.count }
    ensures { result ≡ pair_vertex (vertices_of old.entry.positions.now old.entry.marks.now old.entry.count) (pair_row book.now e) }
{
    let a = word(book, 4 * e);
    let b = word(book, 4 * e + 1);
    let first = vertex_at(old.positions, old.marks, a);
    let second = vertex_at(old.positions, old.marks, b);
    midpoint_vertex(first, second)
}

// The new vertices, one for each entry of the book from `start` on, behind the old ones.
pub fn make_vertices(old: Vertices, out: &mut [f32], notes: &mut [u32], pairs: NewPairs)
    requires stand { Stand old.positions.now old.marks.now old.count }
    requires stand_2 { Stand out.old notes.old (old.count + pairs.new) }
    requires pairs { Pairs pairs.book.now pairs.start pairs.new old.count }
    ensures { Laid out.old notes.old old.entry.count (map (pair_vertex (vertices_of old.entry.positions.now old.entry.marks.now old.entry.count)) (pairs_from pairs.entry.book.now pairs.entry.start pairs.entry.new)) out.new notes.new }
{
    for e in 0..pairs.new {
        let v = pair_vertex(old, pairs.book, pairs.start + e);
        put_vertex(out, notes, old.count + e, v);
    }
}

// The vertices before smoothing, on the other bench: the old ones, then the new ones.
pub fn lay_out(old: Vertices, out: &mut [f32], notes: &mut [u32], pairs: NewPairs)
    requires stand { Stand old.positions.now old.marks.now old.count }
    requires stand_2 { Stand out.old notes.old (old.count + pairs.new) }
    requires pairs { Pairs pairs.book.now pairs.start pairs.new old.count }
    ensures { Over out.old notes.old (with_midpoints (vertices_of old.entry.positions.now old.entry.marks.now old.entry.count) (pairs_from pairs.entry.book.now pairs.entry.start pairs.entry.new)) out.new notes.new }
{
    copy_vertices(old, out, notes);
    make_vertices(old, out, notes, pairs);
}
