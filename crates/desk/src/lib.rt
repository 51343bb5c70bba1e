// The desk of the program `sheet`: 1,024 cells for each list of the file's kind, and for the book.
#![tactic(auto)]

ghost use Rattle.std.specs.Prelude.{◌≡◌, suc, ◌*◌};
ghost use Rattle.geom.specs.Kinds.{kind_of};
ghost use Rattle.geom.specs.Memory.{area_corners, volume_corners};
ghost use Rattle.desk.specs.Desk.{Wide, kind_said};

use geom::kind::Kind;
use index::CELL;

// The words that are lent to the book.
pub const BOOK: usize = 1024 * CELL;

// The arrays of a bench: 1,024 cells for each list. Areas and volumes have the words that those of cubes take; where simplices are read,
// fewer are lent.
#[derive(Drop)]
pub struct Arrays {
    pub positions: [f32; 4096],
    pub marks: [u32; 3072],
    pub points: [u32; 1024],
    pub lines: [u32; 3072],
    pub areas: [u32; 5120],
    pub volumes: [u32; 9216],
    pub curves: [u32; 2048],
    pub steps: [u32; 2048],
}

impl Arrays {
    pub fn blank() -> Self
        ensures { Wide result }
    {
        Arrays {
            positions: [0.0; 4096],
            marks: [0; 3072],
            points: [0; 1024],
            lines: [0; 3072],
            areas: [0; 5120],
            volumes: [0; 9216],
            curves: [0; 2048],
            steps: [0; 2048],
        }
    }
}

// The kind that the file says: how many words are lent to areas and volumes depends on it. Where it says none, the file is refused
// for that.
pub fn look(file: &[u8]) -> Kind
    ensures { kind_of result ≡ kind_said file.now }
{
    match file.get(1) {
        None | Some(0) => Kind::Cubes,
        Some(_) => Kind::Simplices,
    }
}

// The words of 1,024 areas.
pub fn area_words(kind: Kind) -> usize
    ensures { result ≡ suc (area_corners (kind_of kind)) * 1024 }
{
    match kind {
        Kind::Cubes => 5120,
        Kind::Simplices => 4096,
    }
}

// The words of 1,024 volumes.
pub fn volume_words(kind: Kind) -> usize
    ensures { result ≡ suc (volume_corners (kind_of kind)) * 1024 }
{
    match kind {
        Kind::Cubes => 9216,
        Kind::Simplices => 5120,
    }
}
