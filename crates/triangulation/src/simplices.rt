// Squares cut into triangles and cubes into tetrahedra, each by its table. The tables are the Rust's, row for row; a row
// ends with 0, or with 1 where the piece is odd.
ghost use Rattle.triangulation.specs.Entry.{triangles_of, tetrahedra_of};
ghost use Rattle.triangulation.specs.Tables.{square_table, square_holds, square_makes, cube_table, cube_holds, cube_makes};

use crate::cutting::Cut;

// Square: [0,1,3] even, [0,2,3] odd.
#[rattlefmt::skip]
const TRI_ASSEMBLY_ORDER: [usize; 8] = [
    0, 1, 3, 0,
    0, 2, 3, 1,
];

// Cube: [0,1,3,7] even, [0,1,5,7] odd, [0,2,3,7] odd, [0,2,6,7] even, [0,4,5,7] even, [0,4,6,7] odd.
#[rattlefmt::skip]
const TETRA_ASSEMBLY_ORDER: [usize; 30] = [
    0, 1, 3, 7, 0,
    0, 1, 5, 7, 1,
    0, 2, 3, 7, 1,
    0, 2, 6, 7, 0,
    0, 4, 5, 7, 0,
    0, 4, 6, 7, 1,
];

pub struct Squares;

impl Cut for Squares {
    ghost CORNERS = { 4 };

    ghost SIZE = { 3 };

    ghost PIECES = { 2 };

    ghost table = { square_table };

    ghost made = { triangles_of };

    ghost holds = { square_holds };

    ghost makes = { square_makes };

    const CORNERS: usize = 4;

    const SIZE: usize = 3;

    const PIECES: usize = 2;

    fn table() -> &'static [usize] {
        &TRI_ASSEMBLY_ORDER
    }
}

pub struct Cubes;

impl Cut for Cubes {
    ghost CORNERS = { 8 };

    ghost SIZE = { 4 };

    ghost PIECES = { 6 };

    ghost table = { cube_table };

    ghost made = { tetrahedra_of };

    ghost holds = { cube_holds };

    ghost makes = { cube_makes };

    const CORNERS: usize = 8;

    const SIZE: usize = 4;

    const PIECES: usize = 6;

    fn table() -> &'static [usize] {
        &TETRA_ASSEMBLY_ORDER
    }
}
