// Every tetrahedron, corners repeated or not: sign times the minors of the differences from corner 0, added to each corner, then normalised.
ghost use Rattle.std.specs.Prelude.{◌≡◌, ℕ, ◌+◌, ◌*◌, ◌≤◌, length};
ghost use mathlib.Core.List.{List, [], ◌∷◌};
ghost use Rattle.geom.specs.declared.answer.Sizes.{Sizes};
ghost use Rattle.geom.specs.Memory.{Bench, parity_of};
ghost use Rattle.geom.specs.Normals.{volume_normal, gather4};
ghost use Rattle.vertices.specs.Cells.{vertices_of};
ghost use Rattle.normals.specs.Cells.{Below};
ghost use Rattle.geom.specs.Turning.{four};
ghost use Rattle.normals4.specs.Entry.{tetrahedra_entry};
ghost use Rattle.normals4.specs.Cells.{products, first_axes, second_axes, third_axes, cross_products, minors_of, signs_of, volume_step, tetrahedra};

use geom::answer::Sizes;
use geom::bench::Bench;
use geom::words::word;
use normals::cells::to_corners;
use normals::faces::Faces;
use normals::sign::sign;
use numbers::vec4::Vec4;
use vertices::cells::point_at;

// The products of two points, axis by axis.
fn times(p: Vec4, q: Vec4) -> Vec4
    ensures { result ≡ products p q }
{
    Vec4 {
        x: p.x * q.x,
        y: p.y * q.y,
        z: p.z * q.z,
        w: p.w * q.w,
    }
}

// Where each axis in turn is left out, the first of the three that are left.
fn firsts(p: Vec4) -> Vec4
    ensures { result ≡ first_axes p }
{
    Vec4 {
        x: p.y,
        y: p.x,
        z: p.x,
        w: p.x,
    }
}

// The second of them.
fn seconds(p: Vec4) -> Vec4
    ensures { result ≡ second_axes p }
{
    Vec4 {
        x: p.z,
        y: p.z,
        z: p.y,
        w: p.y,
    }
}

// The third of them.
fn thirds(p: Vec4) -> Vec4
    ensures { result ≡ third_axes p }
{
    Vec4 {
        x: p.w,
        y: p.w,
        z: p.w,
        w: p.z,
    }
}

// p·s - q·r, four at once.
fn crossed(p: Vec4, q: Vec4, r: Vec4, s: Vec4) -> Vec4
    ensures { result ≡ cross_products p q r s }
{
    times(p, s).sub(times(q, r))
}

// The minors of three differences: for each axis the determinant of the other three. All four are worked out together, so that one
// instruction serves them.
fn minors(a: Vec4, b: Vec4, c: Vec4) -> Vec4
    ensures { result ≡ minors_of a b c }
{
    let b1 = firsts(b);
    let b2 = seconds(b);
    let b3 = thirds(b);
    let c1 = firsts(c);
    let c2 = seconds(c);
    let c3 = thirds(c);
    let first = times(firsts(a), crossed(b2, b3, c2, c3));
    let second = times(seconds(a), crossed(b1, b3, c1, c3));
    let third = times(thirds(a), crossed(b1, b2, c1, c2));
    first.sub(second).add(third)
}

// The signs of the minors, -, +, -, +, each times the sign by parity. With 0.0 - s for -s all four are differences, which keeps the compiler from
// mixing them with the minors, that are sums, when it works out four at once.
fn signs(parity: u32) -> Vec4
    requires { parity ≤ 1 }
    ensures { result ≡ signs_of (parity_of parity) }
{
    let s = sign(parity);
    Vec4 {
        x: 0.0 - s,
        y: s,
        z: 0.0 - s,
        w: s,
    }
}

// Sign times the minors of the differences from corner 0.
fn volume_normal(
    positions: &[f32],
    a: usize,
    b: usize,
    c: usize,
    d: usize,
    parity: u32,
    count: usize,
) -> Vec4
    requires count_in_bounds { 4 * count ≤ length positions.now }
    requires below { Below (a ∷ b ∷ c ∷ d ∷ []) count }
    requires parity_bound { parity ≤ 1 }
    ensures { (marks : List ℕ) → result ≡ volume_normal (vertices_of positions.now marks count) (record { corners = a ∷ b ∷ c ∷ d ∷ []; parity = parity_of parity }) }
{
    let origin = point_at(positions, a);
    let v1 = point_at(positions, b);
    let v2 = point_at(positions, c);
    let v3 = point_at(positions, d);
    times(
        signs(parity),
        minors(v1.sub(origin), v2.sub(origin), v3.sub(origin)),
    )
}

pub struct Tetrahedra;

impl Faces for Tetrahedra {
    type Normal = Vec4;

    ghost corners = { 4 };

    ghost gathered = { gather4 };

    ghost step = { volume_step };

    ghost dimension = { four };

    ghost faces = { λ (b : Bench). b.volumes };

    ghost number = { λ (s : Sizes). s.volumes };

    ghost folds = { tetrahedra };

    ghost entry = { tetrahedra_entry };

    fn list<'a>(bench: &Bench<'a>) -> &'a [u32] {
        bench.volumes
    }

    fn stated(sizes: Sizes) -> usize {
        sizes.volumes
    }

    fn add(positions: &[f32], words: &[u32], sums: &mut [f32], i: usize, count: usize) {
        let start = 5 * i;
        let a = word(words, start);
        let b = word(words, start + 1);
        let c = word(words, start + 2);
        let d = word(words, start + 3);
        let parity = words[start + 4];
        let n = volume_normal(positions, a, b, c, d, parity, count);
        to_corners(sums, [a, b, c, d], n, count);
    }
}
