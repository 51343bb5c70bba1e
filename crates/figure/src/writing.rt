// The second walk, which writes: the judgement has passed, so every field is read at its place. One reader goes past the lists, and each is written from
// its start.
ghost use Rattle.std.specs.Prelude.{◌≡◌, ◌+◌, ◌*◌, ◌≤◌, ◌<◌, length};
ghost use Rattle.std.proofs.lemmas.List.Edits.{sets};
ghost use Rattle.geom.specs.Kinds.{kind_of};
ghost use Rattle.geom.specs.Memory.{parity_of, parity_word, element_words, over, bench_of};
ghost use Rattle.geom.specs.File.{bench_over};
ghost use Rattle.geom.specs.Lent.{words_on, Same};
ghost use Rattle.vertices.specs.Cells.{Over, Stand};
ghost use Rattle.fields.specs.Fields.{vertex_at, vertices_at, numbers_at, wide, element_at, elements_at, curves_at};
ghost use Rattle.reading.specs.Places.{mesh_at};
ghost use Rattle.figure.specs.Written.{row_words, step_word, steps_at, Words, Rows, Steps, Curve, Curves, Wind, Winded, Ready};

use fields::field::{big_endian, float_of};
use geom::answer::Sizes;
use geom::bench::BenchMut;
use geom::kind::Kind;
use geom::parity::Parity;
use geom::vertex::Vertex;
use judge::counts::{area_corners, volume_corners};
use numbers::vec4::Vec4;
use reading::reader::Reader;
use vertices::make::put_vertex;

// The vertex at a place.
#[tactic(auto, unfolding(fields::specs::Fields::vertex_at))]
pub fn vertex_of(file: &[u8], at: usize) -> Vertex
    requires { at + 25 ≤ length file.now }
    ensures { result ≡ vertex_at file.now at }
{
    let x = float_of(big_endian(file, at));
    let y = float_of(big_endian(file, at + 4));
    let z = float_of(big_endian(file, at + 8));
    let w = float_of(big_endian(file, at + 12));
    let flags = file[at + 16] as u32;
    let tag = big_endian(file, at + 17);
    let k = big_endian(file, at + 21);
    Vertex {
        position: Vec4 { x, y, z, w },
        flags,
        tag,
        k,
    }
}

// The list of vertices at a place, its count first. The answer is the place behind the list.
pub fn put_vertices(
    file: &[u8],
    at: usize,
    positions: &mut [f32],
    marks: &mut [u32],
    n: usize,
) -> usize
    requires { (at + 4 + 25 * n ≤ length file.now) × Stand positions.old marks.old n }
    ensures { (result ≡ at + 4 + 25 * n) × Over positions.old marks.old (vertices_at file.now (at + 4) n) positions.new marks.new }
{
    let start = at + 4;
    for i in 0..n {
        let v = vertex_of(file, start + 25 * i);
        put_vertex(positions, marks, i, v);
    }
    start + 25 * n
}

// Numbers, one after the other, from a word of a list on.
pub fn put_numbers(file: &[u8], at: usize, out: &mut [u32], from: usize, n: usize)
    requires { Words file.now at out.old from n }
    ensures { out.new ≡ sets out.old from (numbers_at file.now at n) }
{
    for i in 0..n {
        out[from + i] = big_endian(file, at + 4 * i);
    }
}

// The list of points at a place.
#[tactic(auto, using(crate::proofs::Elements::numbers_over))]
pub fn put_points(file: &[u8], at: usize, points: &mut [u32], n: usize) -> usize
    requires { Words file.now (at + 4) points.old 0 n }
    ensures { (result ≡ at + 4 + 4 * n) × (points.new ≡ over points.old (numbers_at file.now (at + 4) n)) }
{
    let start = at + 4;
    put_numbers(file, start, points, 0, n);
    start + 4 * n
}

// The word of a parity byte: 0 even, 1 odd.
pub fn parity_word(byte: u8) -> u32
    ensures { result ≡ parity_word (parity_of byte) }
{
    u32::from(Parity::from(byte as u32))
}

// An element: its corners, then its parity.
#[tactic(auto, using(crate::proofs::Elements::element_written))]
pub fn put_element(file: &[u8], at: usize, out: &mut [u32], from: usize, corners: usize)
    requires { (at + wide corners ≤ length file.now) × (from + corners < length out.old) }
    ensures { out.new ≡ sets out.old from (row_words (element_at corners file.now at)) }
{
    put_numbers(file, at, out, from, corners);
    let byte = file[at + 4 * corners];
    out[from + corners] = parity_word(byte);
}

// The list of elements at a place.
pub fn put_elements(file: &[u8], at: usize, out: &mut [u32], corners: usize, n: usize) -> usize
    requires { Rows file.now (at + 4) out.old corners n }
    ensures { (result ≡ at + 4 + wide corners * n) × (out.new ≡ over out.old (element_words (elements_at corners file.now (at + 4) n))) }
{
    let start = at + 4;
    let wide = 4 * corners + 1;
    let cell = corners + 1;
    for i in 0..n {
        put_element(file, start + wide * i, out, cell * i, corners);
    }
    start + wide * n
}

// The word beside vertex j of a curve: the parity of the step to the next, and 0 beside the last. The vertices begin at a place, the parities behind them.
#[tactic(auto, using(crate::proofs::Strings::step_last, crate::proofs::Strings::step_next))]
pub fn step_word(file: &[u8], at: usize, count: usize, j: usize) -> u32
    requires { Steps file.now at count }
    ensures { result ≡ step_word file.now at count j }
{
    if count - 1 <= j {
        return 0;
    }
    let byte = file[at + 4 * count + j];
    parity_word(byte)
}

// The vertices of a curve, each with its step's parity.
pub fn put_steps(file: &[u8], at: usize, steps: &mut [u32], from: usize, count: usize)
    requires steps { Steps file.now at count }
    requires count_in_bounds { 2 * (from + count) ≤ length steps.old }
    ensures { steps.new ≡ sets steps.old (2 * from) (steps_at file.now at count) }
{
    for j in 0..count {
        let word = step_word(file, at, count, j);
        let row = 2 * (from + j);
        steps[row] = big_endian(file, at + 4 * j);
        steps[row + 1] = word;
    }
}

// A curve: its tag and vertex count, and its vertices behind those of the curves before. The answer is the vertex count.
pub fn put_curve(
    file: &[u8],
    at: usize,
    curves: &mut [u32],
    steps: &mut [u32],
    i: usize,
    from: usize,
) -> usize
    requires { Curve file.now at curves.old steps.old i from }
    ensures { Wind file.now at curves.old steps.old i from result curves.new steps.new }
{
    let tag = big_endian(file, at);
    let count = big_endian(file, at + 4);
    let row = 2 * i;
    curves[row] = tag;
    curves[row + 1] = count;
    put_steps(file, at + 8, steps, from, count as usize);
    count as usize
}

// The list of curves at a place; nothing is read behind it.
pub fn put_curves(file: &[u8], at: usize, curves: &mut [u32], steps: &mut [u32], n: usize)
    requires { Curves file.now (at + 4) curves.old steps.old n }
    ensures { Winded (curves_at file.now (at + 4) n) curves.old steps.old curves.new steps.new }
{
    let mut place = at + 4;
    let mut from: usize = 0;
    for i in 0..n {
        let count = put_curve(file, place, curves, steps, i, from);
        place += 5 * count + 7;
        from += count;
    }
}

// The mesh of a file is written to a bench. A reader is set up behind version and kind, and moved past each list that was written.
pub fn write(file: &[u8], kind: Kind, s: Sizes, bench: &mut BenchMut)
    requires { Ready (kind_of kind) s file.now (words_on bench.old) }
    ensures same { Same bench.new bench.old }
    ensures written { words_on bench.new ≡ bench_over (words_on bench.old) (bench_of (mesh_at (kind_of kind) s file.now)) }
{
    let mut r = Reader::new(file, 2);
    r.at = put_vertices(r.src, r.at, bench.positions, bench.marks, s.vertices);
    r.at = put_points(r.src, r.at, bench.points, s.points);
    r.at = put_elements(r.src, r.at, bench.lines, 2, s.lines);
    r.at = put_elements(r.src, r.at, bench.areas, area_corners(kind), s.areas);
    r.at = put_elements(r.src, r.at, bench.volumes, volume_corners(kind), s.volumes);
    put_curves(r.src, r.at, bench.curves, bench.steps, s.curves);
}
