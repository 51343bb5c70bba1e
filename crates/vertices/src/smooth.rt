// Smoothing. All is gathered first; only then is a vertex moved.
ghost use Rattle.std.specs.Prelude.{◌≡◌, cond, List, ℕ, ◌+◌, ◌*◌, ◌≤◌, ◌<◌};
ghost use Rattle.geom.specs.Elements.{Curve};
ghost use Rattle.geom.specs.Kinds.{kind_of};
ghost use Rattle.geom.specs.Memory.{area_corners, volume_corners, first_of, vertex_row, over};
ghost use Rattle.geom.specs.Smoothing.{gather, settled, smoothed};
ghost use Rattle.vertices.specs.Cells.{positions_words, vertices_of, elements_of, lists_of, Stand, MOST, Elements, Gathers};
ghost use Rattle.vertices.specs.Gathered.{row, Holds, Kept};

use crate::gather::Gathered;
use crate::lists::{ElementList, Lists};
use crate::rules::{Columns, Mean, Rule};
use crate::settle::settle;
use geom::kind::Kind;

// What each vertex gathers from one list. After the last list the vertices are moved, and not before: until then they are read. The eight parameters
// make the calls a table, a list a row, and which is the last a value.
fn smooth_over<R: Rule<N>, const N: usize>(
    points: &mut [f32],
    marks: &[u32],
    list: ElementList,
    gathered: &mut Gathered,
    count: usize,
    rank: u32,
    last: bool,
    time: bool,
)
    requires few { N ≤ MOST }
    requires stand { Stand points.old marks.now count }
    requires elements { Elements list.words.now N list.count count }
    requires lent { Holds gathered.old count }
    requires by_index { (u : ℕ) → u < count → (row gathered.old u).count + N * list.count ≤ MOST }
    ensures kept { Kept gathered.old gathered.new }
    ensures by_index_2 { (u : ℕ) → row gathered.new u ≡ gather rank R.gives (vertices_of points.old marks.now count) u (elements_of N list.entry.words.now list.entry.count) (row gathered.old u) }
    ensures by_index_3 { (u : ℕ) → (row gathered.new u).count ≤ (row gathered.old u).count + N * list.entry.count }
    ensures points_after { points.new ≡ cond last (over points.old (positions_words (first_of (λ (i : ℕ). settled time (vertex_row points.old marks.now i) (row gathered.new i)) count))) points.old }
{
    gathered.gather::<R, N>(points, list, count, rank);
    if last {
        settle(points, marks, gathered, count, time);
    }
}

// All vertices, smoothed over the new lists by the rules of the kind: lines, squares, cubes, in rising rank; or tetrahedra, triangles, segments,
// all of one rank. The vertices' marks stay.
#[rattlefmt::skip]
pub fn smooth(
    kind: Kind,
    points: &mut [f32],
    marks: &[u32],
    count: usize,
    lists: Lists,
    gathered: &mut Gathered,
    time: bool,
)
    requires stand { Stand points.old marks.now count }
    requires gathers { Gathers lists.lines.words.now lists.lines.count lists.areas.words.now lists.areas.count (area_corners (kind_of kind)) lists.volumes.words.now lists.volumes.count (volume_corners (kind_of kind)) count }
    requires lent { Holds gathered.old count }
    ensures kept { Kept gathered.old gathered.new }
    ensures smoothed { (curves : List Curve) → points.new ≡ over points.old (positions_words (smoothed (kind_of kind) time (lists_of lists.entry.lines.words.now lists.entry.lines.count (area_corners (kind_of kind)) lists.entry.areas.words.now lists.entry.areas.count (volume_corners (kind_of kind)) lists.entry.volumes.words.now lists.entry.volumes.count curves) (vertices_of points.old marks.now count))) }
{
    gathered.clear(count);
    match kind {
        Kind::Cubes => {
            smooth_over::<Columns, 2>(points, marks, lists.lines,   gathered, count, 1, false, time);
            smooth_over::<Columns, 4>(points, marks, lists.areas,   gathered, count, 2, false, time);
            smooth_over::<Columns, 8>(points, marks, lists.volumes, gathered, count, 3, true,  time);
        }
        Kind::Simplices => {
            smooth_over::<Mean, 4>(points, marks, lists.volumes, gathered, count, 1, false, time);
            smooth_over::<Mean, 3>(points, marks, lists.areas,   gathered, count, 1, false, time);
            smooth_over::<Mean, 2>(points, marks, lists.lines,   gathered, count, 1, true,  time);
        }
    }
}
