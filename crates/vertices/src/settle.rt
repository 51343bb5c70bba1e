// Then sum/count replaces each axis that isn't flagged, and w only with smooth_time; a count of 0 changes nothing.
ghost use Rattle.std.specs.Prelude.{◌≡◌, cond, not, ℕ, ◌/◌, ◌%◌, ◌≤◌, ◌<◌, eqb};
ghost use Rattle.geom.specs.Memory.{first_of, vertex_row, over};
ghost use Rattle.geom.specs.Smoothing as Smoothing;
ghost use Rattle.vertices.specs.Cells.{positions_words, Stand, MOST};
ghost use Rattle.vertices.specs.Gathered.{row, Holds};

use crate::cells::{put_point, vertex_at};
use crate::gather::Gathered;
use geom::vertex::Vertex;
use numbers::vec4::Vec4;

// One axis: the new value, unless the flag's bit is on.
fn axis(flags: u32, bit: u32, old: f32, new: f32) -> f32
    requires { 0 < bit }
    ensures { result ≡ cond (not (eqb (flags / bit % 2) 1)) new old }
{
    if flags / bit % 2 == 1 {
        return old;
    }
    new
}

// Each axis that isn't flagged, and w only with smooth_time.
fn moved(v: Vertex, p: Vec4, time: bool) -> Vec4
    ensures { result ≡ Smoothing.moved time v p }
{
    let old = v.position;
    let x = axis(v.flags, 1, old.x, p.x);
    let y = axis(v.flags, 2, old.y, p.y);
    let z = axis(v.flags, 4, old.z, p.z);
    let w = if time {
        axis(v.flags, 8, old.w, p.w)
    } else {
        old.w
    };
    Vec4 { x, y, z, w }
}

// The position that sum/count makes of a vertex.
pub fn settled_point(v: Vertex, sum: Vec4, count: u32, time: bool) -> Vec4
    requires { count ≤ MOST }
    ensures { (touch : ℕ) → result ≡ (Smoothing.settled time v (record { sum = sum; count = count; touch = touch })).position }
{
    if count == 0 {
        return v.position;
    }
    let p = sum.over(count as f32);
    moved(v, p, time)
}

// Each vertex in use, from what it has gathered. Its marks stay.
pub fn settle(positions: &mut [f32], marks: &[u32], gathered: &Gathered, count: usize, time: bool)
    requires stand { Stand positions.old marks.now count }
    requires lent { Holds gathered.now count }
    requires by_index { (u : ℕ) → u < count → (row gathered.now u).count ≤ MOST }
    ensures { positions.new ≡ over positions.old (positions_words (first_of (λ (i : ℕ). Smoothing.settled time (vertex_row positions.old marks.now i) (row gathered.now i)) count)) }
{
    for i in 0..count {
        let v = vertex_at(positions, marks, i);
        let sum = gathered.sum(i);
        let p = settled_point(v, sum, gathered.tallies[2 * i], time);
        put_point(positions, i, p);
    }
}
