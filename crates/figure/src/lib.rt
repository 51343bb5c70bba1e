// The file. It is judged whole, field by field, before a cell is written; then its lists are written to the first bench.
// Any bytes, any slices of any lengths.
#![tactic(auto)]

ghost use Rattle.std.specs.Prelude.{◌≡◌};
ghost use Rattle.geom.specs.Answers.{opening_of, no_mesh, mesh_of_kind, number_of};
ghost use Rattle.geom.specs.Kinds.{kind_of};
ghost use Rattle.geom.specs.File.{NO_SIZES, loaded};
ghost use Rattle.geom.specs.Lent.{words_of, words_on, Same};
ghost use Rattle.figure.specs.Entry.{opening, outcome};

use crate::writing::write;
use geom::answer::{Reading, Sizes};
use geom::bench::{Bench, BenchMut};
use geom::refusal::Refusal;
use judge::counts::{Lengths, benches_equal};
use reading::judging::{Mesh, figure};

pub mod writing;

// After a refusal nothing was read: all sizes are 0.
#[tactic(auto, unfolding(geom::specs::Answers::judgement_of, geom::specs::Answers::opening_of))]
fn refused(refusal: Refusal) -> Reading
    ensures { opening_of result ≡ opening NO_SIZES (no_mesh (number_of refusal)) }
{
    let sizes = Sizes {
        vertices: 0,
        points: 0,
        lines: 0,
        areas: 0,
        volumes: 0,
        curves: 0,
        curve_vertices: 0,
    };
    Reading {
        sizes,
        opened: Err(refusal),
    }
}

// A mesh of a kind and sizes was read.
#[tactic(auto, unfolding(geom::specs::Answers::judgement_of, geom::specs::Answers::opening_of))]
fn read(mesh: Mesh) -> Reading
    ensures { opening_of result ≡ opening mesh.sizes (mesh_of_kind (kind_of mesh.kind)) }
{
    Reading {
        sizes: mesh.sizes,
        opened: Ok(mesh.kind),
    }
}

// A file is read onto the first bench: 9 comes first, then it is judged field by field, and if refused nothing changes. Of the second bench the lengths
// are enough.
pub fn load(file: &[u8], bench: &mut BenchMut, other: &Bench) -> Reading
    ensures same { Same bench.new bench.old }
    ensures loaded { outcome (opening_of result) (words_on bench.new) ≡ loaded (words_on bench.old) (words_of other.now) file.now }
{
    let first = Lengths::of(&bench.read());
    let second = Lengths::of(other);
    if !benches_equal(first, second) {
        return refused(Refusal::Count);
    }
    match figure(file, first) {
        Err(refusal) => refused(refusal),
        Ok(mesh) => {
            write(file, mesh.kind, mesh.sizes, bench);
            read(mesh)
        }
    }
}
