// The elements that normals come from, triangles or tetrahedra: what one adds to each vertex's sum, what all of them come to, and the entry of either dimension.
ghost use Rattle.std.specs.Prelude.{◌≡◌, ℕ, ◌+◌, ◌*◌, ◌≤◌, length};
ghost use mathlib.Core.List.{List, flat_map};
ghost use Rattle.numbers.specs.Normal as Normal;
ghost use Rattle.geom.specs.declared.answer.Sizes.{Sizes};
ghost use Rattle.geom.specs.declared.vertex.Vertex.{Vertex};
ghost use Rattle.geom.specs.Answers.{verdict_of};
ghost use Rattle.geom.specs.Elements.{Element};
ghost use Rattle.geom.specs.Lent.{words_of};
ghost use Rattle.geom.specs.Memory.{Bench, first_of, over};
ghost use Rattle.geom.specs.Turning.{Dimension, Shades};
ghost use Rattle.vertices.specs.Cells.{vertices_of, elements_of};
ghost use Rattle.normals.specs.Cells.{element_at, Signed, Holds, Folds};
ghost use Rattle.normals.specs.Entry.{Entry};

use crate::cells::{Cell, clear, settle};
use geom::answer::Sizes;
use geom::bench::Bench;
use geom::kind::Kind;
use geom::refusal::Refusal;
use judge::mesh::handed_in;

pub trait Faces {
    type Normal: Cell;

    ghost corners: { ℕ };

    ghost gathered: { List Vertex → ℕ → List Element → Self.Normal → Self.Normal };

    ghost step: { List Vertex → Element → ℕ → Self.Normal → Self.Normal };

    ghost dimension: { Dimension };

    ghost faces: { Bench → List ℕ };

    ghost number: { Sizes → ℕ };

    // Their list of a bench.
    fn list<'a>(bench: &Bench<'a>) -> &'a [u32]
        ensures { result.now ≡ faces (words_of bench.now) };

    // How many of it the caller states.
    fn stated(sizes: Sizes) -> usize
        ensures { result ≡ number sizes };

    // What element i adds.
    fn add(positions: &[f32], words: &[u32], sums: &mut [f32], i: usize, count: usize)
        requires count_in_bounds { 4 * count ≤ length positions.now }
        requires signed { Signed words.now corners (i + 1) count }
        requires count_in_bounds_2 { Self.Normal.WIDTH * count ≤ length sums.old }
        ensures { (marks : List ℕ) → Holds Self.Normal.in_row Self.Normal.WIDTH count sums.old (λ (u : ℕ). step (vertices_of positions.now marks count) (element_at corners words.now i) u (Self.Normal.in_row sums.old u)) sums.new };

    ghost folds: { Folds gathered step };

    ghost entry: { Entry dimension Self.Normal.WIDTH corners faces number (λ s b. flat_map (Normal.cells Self.Normal.words Self.Normal.origin) (first_of (λ (v : ℕ). Normal.normalised Self.Normal.product Self.Normal.scaled (gathered (vertices_of b.positions b.marks s.vertices) v (elements_of corners (faces b) (number s)) Self.Normal.origin)) s.vertices)) };
}

// What each vertex gathers from the elements.
fn gather<F: Faces>(
    positions: &[f32],
    words: &[u32],
    sums: &mut [f32],
    elements: usize,
    count: usize,
)
    requires count_in_bounds { 4 * count ≤ length positions.now }
    requires signed { Signed words.now F.corners elements count }
    requires count_in_bounds_2 { F.Normal.WIDTH * count ≤ length sums.old }
    ensures { (marks : List ℕ) → Holds F.Normal.in_row F.Normal.WIDTH count sums.old (λ (u : ℕ). F.gathered (vertices_of positions.now marks count) u (elements_of F.corners words.now elements) (F.Normal.in_row sums.old u)) sums.new }
{
    for i in 0..elements {
        F::add(positions, words, sums, i, count);
    }
}

// The normals of all vertices, from the elements.
fn shade<F: Faces>(
    positions: &[f32],
    words: &[u32],
    normals: &mut [f32],
    elements: usize,
    count: usize,
)
    requires count_in_bounds { 4 * count ≤ length positions.now }
    requires signed { Signed words.now F.corners elements count }
    requires count_in_bounds_2 { F.Normal.WIDTH * count ≤ length normals.old }
    ensures { (marks : List ℕ) → normals.new ≡ over normals.old (flat_map (Normal.cells F.Normal.words F.Normal.origin) (first_of (λ (v : ℕ). Normal.normalised F.Normal.product F.Normal.scaled (F.gathered (vertices_of positions.now marks count) v (elements_of F.corners words.now elements) F.Normal.origin)) count)) }
{
    clear(normals, F::Normal::WIDTH * count);
    gather::<F>(positions, words, normals, elements, count);
    settle::<F::Normal>(normals, count);
}

// The entry: judged first, then 10 where the lent list has fewer cells than there are vertices. If refused nothing changes; else every
// vertex's cell is written, and the words past them stay.
pub fn compute<F: Faces>(sizes: Sizes, bench: &Bench, normals: &mut [f32]) -> Result<(), Refusal>
    ensures { Shades F.dimension sizes (words_of bench.now) normals.old (record { verdict = verdict_of result; out = normals.new }) }
{
    handed_in(Kind::Simplices, sizes, bench, true, true)?;
    if normals.len() / F::Normal::WIDTH < sizes.vertices {
        return Err(Refusal::Room);
    }
    shade::<F>(
        bench.positions,
        F::list(bench),
        normals,
        F::stated(sizes),
        sizes.vertices,
    );
    Ok(())
}
