// Triangles with three different corners: sign times cross(v2 - v1, v3 - v2), added to each corner, then normalised.
ghost use Rattle.std.specs.Prelude.{◌≡◌, ℕ, ◌+◌, ◌*◌, ◌≤◌, length};
ghost use mathlib.Core.List.{List, [], ◌∷◌};
ghost use Rattle.geom.specs.declared.answer.Sizes.{Sizes};
ghost use Rattle.geom.specs.Memory.{Bench, parity_of};
ghost use Rattle.geom.specs.Normals.{xyz, three_corners, area_normal, gather3};
ghost use Rattle.vertices.specs.Cells.{point_row, vertices_of};
ghost use Rattle.normals.specs.Cells.{Below};
ghost use Rattle.geom.specs.Turning.{three};
ghost use Rattle.normals3.specs.Entry.{triangles_entry};
ghost use Rattle.normals3.specs.Cells.{area_step, triangles};

use geom::answer::Sizes;
use geom::bench::Bench;
use geom::words::word;
use normals::cells::to_corners;
use normals::faces::Faces;
use normals::sign::sign;
use numbers::vec3::Vec3;
use vertices::cells::point_at;

// The axes x, y and z of the point in row v.
#[tactic(auto, unfolding(geom::specs::Normals::xyz))]
fn xyz_at(positions: &[f32], v: usize) -> Vec3
    requires { 4 * v + 4 ≤ length positions.now }
    ensures { result ≡ xyz (point_row positions.now v) }
{
    let p = point_at(positions, v);
    Vec3 {
        x: p.x,
        y: p.y,
        z: p.z,
    }
}

// Three different corners.
#[tactic(auto, unfolding(geom::specs::Normals::three_corners))]
fn three_corners(a: usize, b: usize, c: usize) -> bool
    ensures { result ≡ three_corners (a ∷ b ∷ c ∷ []) }
{
    a != b && b != c && c != a
}

// Sign times cross(v2 - v1, v3 - v2).
fn area_normal(positions: &[f32], a: usize, b: usize, c: usize, parity: u32, count: usize) -> Vec3
    requires count_in_bounds { 4 * count ≤ length positions.now }
    requires below { Below (a ∷ b ∷ c ∷ []) count }
    requires parity_bound { parity ≤ 1 }
    ensures { (marks : List ℕ) → result ≡ area_normal (vertices_of positions.now marks count) (record { corners = a ∷ b ∷ c ∷ []; parity = parity_of parity }) }
{
    let v1 = xyz_at(positions, a);
    let v2 = xyz_at(positions, b);
    let v3 = xyz_at(positions, c);
    v2.sub(v1).cross(v3.sub(v2)).scale(sign(parity))
}

pub struct Triangles;

impl Faces for Triangles {
    type Normal = Vec3;

    ghost corners = { 3 };

    ghost gathered = { gather3 };

    ghost step = { area_step };

    ghost dimension = { three };

    ghost faces = { λ (b : Bench). b.areas };

    ghost number = { λ (s : Sizes). s.areas };

    ghost folds = { triangles };

    ghost entry = { triangles_entry };

    fn list<'a>(bench: &Bench<'a>) -> &'a [u32] {
        bench.areas
    }

    fn stated(sizes: Sizes) -> usize {
        sizes.areas
    }

    // Nothing where two corners are the same.
    fn add(positions: &[f32], words: &[u32], sums: &mut [f32], i: usize, count: usize) {
        let start = 4 * i;
        let a = word(words, start);
        let b = word(words, start + 1);
        let c = word(words, start + 2);
        if three_corners(a, b, c) {
            let parity = words[start + 3];
            let n = area_normal(positions, a, b, c, parity, count);
            to_corners(sums, [a, b, c], n, count);
        }
    }
}
