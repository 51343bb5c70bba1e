// Cubes in memory cut into simplices. Any words in any slices of any lengths, any sizes. Vertices, points, lines and
// curves stay where they are; triangles and tetrahedra go into lists lent for them.
#![tactic(auto)]

pub mod cutting;
pub mod simplices;

ghost use Rattle.std.specs.Prelude.{◌≡◌};
ghost use Rattle.geom.specs.Lent.{words_of};
ghost use Rattle.triangulation.specs.Entry.{cuts, answered, lengths_hold, Triangulates};

use crate::cutting::{count, write};
use crate::simplices::{Cubes, Squares};
use geom::answer::{Answer, Sizes};
use geom::bench::Bench;
use geom::kind::Kind;
use geom::refusal::Refusal;
use judge::counts::LIMIT;
use judge::mesh::handed_in;

// 10: what is to be written exceeds neither the lent cells, of which the lengths of the slices are told, nor the limit.
fn cuts_hold(after: Sizes, triangles: usize, tetrahedra: usize) -> bool
    ensures { result ≡ lengths_hold triangles tetrahedra after }
{
    (after.areas <= triangles / 4)
        & (after.areas <= LIMIT)
        & (after.volumes <= tetrahedra / 5)
        & (after.volumes <= LIMIT)
}

// The triangulation: judged first, then its pieces counted, and if refused nothing changes; then the pieces are written.
pub fn triangulate(
    sizes: Sizes,
    bench: &Bench,
    triangles: &mut [u32],
    tetrahedra: &mut [u32],
) -> Answer
    ensures { Triangulates sizes (words_of bench.now) (cuts triangles.old tetrahedra.old) (answered result triangles.new tetrahedra.new) }
{
    let ended = handed_in(Kind::Cubes, sizes, bench, true, true);
    let Ok(()) = ended else {
        return Answer { sizes, ended };
    };
    let after = Sizes {
        areas: count::<Squares>(bench.areas, sizes.areas),
        volumes: count::<Cubes>(bench.volumes, sizes.volumes),
        ..sizes
    };
    if !cuts_hold(after, triangles.len(), tetrahedra.len()) {
        return Answer {
            sizes,
            ended: Err(Refusal::Room),
        };
    }
    write::<Squares>(bench.areas, sizes.areas, triangles);
    write::<Cubes>(bench.volumes, sizes.volumes, tetrahedra);
    Answer {
        sizes: after,
        ended: Ok(()),
    }
}
