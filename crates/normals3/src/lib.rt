// The normals of a simplex mesh in memory in three dimensions, from its triangles. Any words in any slices of any lengths, any
// sizes.
#![tactic(auto)]

ghost use Rattle.geom.specs.Answers.{verdict_of};
ghost use Rattle.geom.specs.Turning.{three, Shades};
ghost use Rattle.geom.specs.Lent.{words_of};

use geom::answer::Sizes;
use geom::bench::Bench;
use geom::refusal::Refusal;
use normals::faces::compute;

mod triangles;

use triangles::Triangles;

// Judged first, then 10 where the lent list has fewer cells of 3 words than there are vertices. If refused nothing
// changes; else every vertex's cell is written, and the words past them stay.
pub fn compute_normals_3d(sizes: Sizes, bench: &Bench, normals: &mut [f32]) -> Result<(), Refusal>
    ensures { Shades three sizes (words_of bench.now) normals.old (record { verdict = verdict_of result; out = normals.new }) }
{
    compute::<Triangles>(sizes, bench, normals)
}
