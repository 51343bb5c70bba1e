// A vertex in lent cells: four floats of its position, three words of its marks. It goes through functions as a struct that holds the position.
ghost use Rattle.std.specs.Prelude.{◌≡◌, ◌+◌, ◌*◌, ◌≤◌, length};
ghost use Rattle.std.proofs.lemmas.List.Edits.{sets};
ghost use Rattle.geom.specs.Memory.{vertex_row};
ghost use Rattle.geom.specs.Vertices.{strand, midpoint_vertex};
ghost use Rattle.vertices.specs.Cells.{position_words, mark_words, point_row, Row};

use geom::vertex::Vertex;
use geom::words::number;
use numbers::vec4::Vec4;

// The point in row i.
pub fn point_at(words: &[f32], i: usize) -> Vec4
    requires { 4 * i + 4 ≤ length words.now }
    ensures { result ≡ point_row words.now i }
{
    let x = number(words, 4 * i);
    let y = number(words, 4 * i + 1);
    let z = number(words, 4 * i + 2);
    let w = number(words, 4 * i + 3);
    Vec4 { x, y, z, w }
}

// The vertex in row i.
pub fn vertex_at(positions: &[f32], marks: &[u32], i: usize) -> Vertex
    requires { Row positions.now marks.now i }
    ensures { result ≡ vertex_row positions.now marks.now i }
{
    let position = point_at(positions, i);
    Vertex {
        position,
        flags: marks[3 * i],
        tag: marks[3 * i + 1],
        k: marks[3 * i + 2],
    }
}

// A point is written to row i.
pub fn put_point(words: &mut [f32], i: usize, p: Vec4)
    requires { 4 * i + 4 ≤ length words.old }
    ensures { words.new ≡ sets words.old (4 * i) (position_words p) }
{
    let at = 4 * i;
    words[at] = p.x;
    words[at + 1] = p.y;
    words[at + 2] = p.z;
    words[at + 3] = p.w;
}

// A vertex's marks are written to row i.
pub fn put_marks(marks: &mut [u32], i: usize, v: Vertex)
    requires { 3 * i + 3 ≤ length marks.old }
    ensures { marks.new ≡ sets marks.old (3 * i) (mark_words v) }
{
    let at = 3 * i;
    marks[at] = v.flags;
    marks[at + 1] = v.tag;
    marks[at + 2] = v.k;
}

// The end whose tag and k a midpoint takes: the one with the smaller k, and the first on a tie.
fn strand(a: Vertex, b: Vertex) -> Vertex
    ensures { result ≡ strand a b }
{
    if b.k < a.k {
        return b;
    }
    a
}

// Position 0.5·(A + B) per axis, flags on where both are on, tag and k both of one end.
pub fn midpoint_vertex(a: Vertex, b: Vertex) -> Vertex
    ensures { result ≡ midpoint_vertex a b }
{
    let p = a.position;
    let q = b.position;
    let position = p.midpoint(q);
    let end = strand(a, b);
    Vertex {
        position,
        flags: a.flags & b.flags,
        tag: end.tag,
        k: end.k,
    }
}
