// The vertex rules of a pass as a whole, for both kinds.
ghost use Rattle.std.specs.Prelude.{List, ◌+◌};
ghost use Rattle.geom.specs.Elements.{Curve};
ghost use Rattle.geom.specs.Kinds.{kind_of};
ghost use Rattle.geom.specs.Memory.{area_corners, volume_corners};
ghost use Rattle.geom.specs.Smoothing.{with_midpoints, smoothed};
ghost use Rattle.vertices.specs.Cells.{vertices_of, lists_of, pairs_from, Over, Gathers, Ready};

use crate::gather::Gathered;
use crate::lists::{Lists, NewPairs, Vertices};
use crate::make::lay_out;
use crate::smooth::smooth;
use geom::kind::Kind;

// The vertex rules of a pass, from one bench to the other: the old vertices, then one for each new pair of the book, all smoothed over the
// new lists, which stand on the other bench. The bench that is read stays as it was.
pub fn pass_vertices(
    kind: Kind,
    old: Vertices,
    pairs: NewPairs,
    lists: Lists,
    out: &mut [f32],
    notes: &mut [u32],
    sum: &mut [f32],
    tally: &mut [u32],
    time: bool,
)
    requires ready { Ready old.positions.now old.marks.now pairs.book.now old.count pairs.start pairs.new out.old notes.old sum.old tally.old }
    requires gathers { Gathers lists.lines.words.now lists.lines.count lists.areas.words.now lists.areas.count (area_corners (kind_of kind)) lists.volumes.words.now lists.volumes.count (volume_corners (kind_of kind)) (old.count + pairs.new) }
    ensures { (curves : List Curve) → Over out.old notes.old (smoothed (kind_of kind) time (lists_of lists.entry.lines.words.now lists.entry.lines.count (area_corners (kind_of kind)) lists.entry.areas.words.now lists.entry.areas.count (volume_corners (kind_of kind)) lists.entry.volumes.words.now lists.entry.volumes.count curves) (with_midpoints (vertices_of old.entry.positions.now old.entry.marks.now old.entry.count) (pairs_from pairs.entry.book.now pairs.entry.start pairs.entry.new))) out.new notes.new }
{
    lay_out(old, out, notes, pairs);
    // A count of 0 changes nothing: over no elements every vertex stays where it is.
    if lists.are_empty() {
        return;
    }
    let count = old.count + pairs.new;
    let mut gathered = Gathered {
        sums: sum,
        tallies: tally,
    };
    smooth(kind, out, notes, count, lists, &mut gathered, time);
}
