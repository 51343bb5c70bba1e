// What each vertex gathers from the pass's new lists, in lent cells.
ghost use Rattle.std.specs.Prelude.{◌≡◌, cond, ◌&&◌, List, [], ◌∷◌, ℕ, ◌+◌, ◌*◌, ◌≤◌, ◌<◌, eqb, ltb, length, get_or};
ghost use Rattle.std.proofs.lemmas.List.Edits.{sets};
ghost use Rattle.geom.specs.Smoothing as Smoothing;
ghost use Rattle.vertices.specs.Cells.{vertices_of, elements_of, point_row, MOST, Elements};
ghost use Rattle.vertices.specs.Gathered.{row, Holds, Kept};

use crate::cells::{point_at, put_point};
use crate::lists::ElementList;
use crate::rules::{Rule, points};
use numbers::vec4::Vec4;

// Count and touch are written to row i.
fn put_tally(tallies: &mut [u32], i: usize, count: u32, touch: u32)
    requires { 2 * i + 2 ≤ length tallies.old }
    ensures { tallies.new ≡ sets tallies.old (2 * i) (count ∷ touch ∷ []) }
{
    let at = 2 * i;
    tallies[at] = count;
    tallies[at + 1] = touch;
}

// An update is ignored where a lower kind touched that vertex. No kind is lower than the lowest rank, so where there is one rank alone no touch
// is asked.
fn ignored(touch: u32, rank: u32) -> bool
    ensures { result ≡ (ltb 0 touch && ltb touch rank) }
{
    rank > 1 && touch != 0 && touch < rank
}

// What each vertex has gathered, in lent cells: four floats of its sum, and two words, its count and touch.
#[derive(Drop)]
pub struct Gathered<'a> {
    pub sums: &'a mut [f32],
    pub tallies: &'a mut [u32],
}

impl<'a> Gathered<'a> {
    // The sum of vertex v.
    pub(crate) fn sum(&self, v: usize) -> Vec4
        requires { 4 * v + 4 ≤ length self.now.sums.now }
        ensures { result ≡ point_row self.now.sums.now v }
    {
        point_at(self.sums, v)
    }

    // What vertex v has gathered is written; all others keep theirs.
    pub fn put(&mut self, v: usize, sum: Vec4, count: u32, touch: u32)
        requires { Holds self.old (v + 1) }
        ensures kept { Kept self.old self.new }
        ensures rows { (u : ℕ) → row self.new u ≡ cond (eqb v u) (record { sum = sum; count = count; touch = touch }) (row self.old u) }
    {
        put_point(self.sums, v, sum);
        put_tally(self.tallies, v, count, touch);
    }

    // Sums and counts are cleared for the vertices in use.
    pub fn clear(&mut self, count: usize)
        requires { Holds self.old count }
        ensures kept { Kept self.old self.new }
        ensures cleared { (u : ℕ) → u < count → row self.new u ≡ Smoothing.nothing }
    {
        for i in 0..count {
            self.put(i, Vec4::zero(), 0, 0);
        }
    }

    // One update of vertex v by an element of the rank.
    pub fn update(&mut self, v: usize, p: Vec4, rank: u32)
        requires lent { Holds self.old (v + 1) }
        requires v_bound { (row self.old v).count < MOST }
        ensures kept { Kept self.old self.new }
        ensures rows { (u : ℕ) → row self.new u ≡ cond (eqb v u) (Smoothing.update rank p (row self.old u)) (row self.old u) }
    {
        let sum = self.sum(v);
        let count = self.tallies[2 * v];
        let touch = self.tallies[2 * v + 1];
        if ignored(touch, rank) {
            return;
        }
        self.put(v, sum.add(p), count + 1, rank);
    }

    // An element's result goes to each corner, a repeated corner each time.
    pub fn to_corners(&mut self, corners: &[u32], count: usize, p: Vec4, rank: u32)
        requires lent { Holds self.old count }
        requires corners { (k : ℕ) → k < length corners.now → get_or corners.now k 0 < count }
        requires by_index { (u : ℕ) → u < count → (row self.old u).count + length corners.now ≤ MOST }
        ensures kept { Kept self.old self.new }
        ensures rows { (u : ℕ) → row self.new u ≡ Smoothing.to_corners rank p u corners.now (row self.old u) }
    {
        for v in corners {
            self.update(*v as usize, p, rank);
        }
    }

    // What each vertex gathers from the elements of one list: to each corner the element's result.
    pub fn gather<R: Rule<N>, const N: usize>(
        &mut self,
        positions: &[f32],
        list: ElementList,
        count: usize,
        rank: u32,
    )
        requires few { N ≤ MOST }
        requires count_in_bounds { 4 * count ≤ length positions.now }
        requires elements { Elements list.words.now N list.count count }
        requires lent { Holds self.old count }
        requires by_index { (u : ℕ) → u < count → (row self.old u).count + N * list.count ≤ MOST }
        ensures kept { Kept self.old self.new }
        ensures by_index_2 { (marks : List ℕ) (u : ℕ) → row self.new u ≡ Smoothing.gather rank R.gives (vertices_of positions.now marks count) u (elements_of N list.entry.words.now list.entry.count) (row self.old u) }
        ensures by_index_3 { (u : ℕ) → (row self.new u).count ≤ (row self.old u).count + N * list.entry.count }
    {
        for i in 0..list.count {
            let start = (N + 1) * i;
            let corners = &list.words[start..start + N];
            let p = R::result(points(positions, corners, count));
            self.to_corners(corners, count, p, rank);
        }
    }
}
