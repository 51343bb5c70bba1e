// What an element gives to each of its corners.
ghost use Rattle.std.specs.Prelude.{◌≡◌, ℕ, List, ◌*◌, ◌≤◌, ◌<◌, length, get_or, map};
ghost use Rattle.numbers.specs.Points4 as Points4;
ghost use Rattle.numbers.specs.declared.vec4.Vec4.{Vec4};
ghost use Rattle.geom.specs.Smoothing.{column_rule, cube_rule, LINE_WEIGHTS, SQUARE_WEIGHTS};
ghost use Rattle.vertices.specs.Cells.{point_row, MOST};

use crate::cells::point_at;
use geom::words::word;
use numbers::vec4::{Vec4, columns, mean};

// What an element of N corners gives to each of them, by their positions.
pub trait Rule<const N: usize> {
    ghost gives: { List Vec4 → Vec4 };

    fn result(corners: [Vec4; N]) -> Vec4
        requires { N ≤ MOST }
        ensures { result ≡ gives corners.entry };
}

// Simplices: the mean of the corners of a segment, a triangle, a tetrahedron. The number of corners is a constant in each, so that the division
// by it costs little.
#[derive(Clone, Copy)]
pub struct Mean;

impl<const N: usize> Rule<N> for Mean {
    ghost gives = { Points4.mean };

    fn result(corners: [Vec4; N]) -> Vec4
        requires { N ≤ MOST }
        ensures { result ≡ Points4.mean corners.entry }
    {
        mean(corners)
    }
}

// Cubes: the column rule of a line, a square, a cube.
#[derive(Clone, Copy)]
pub struct Columns;

// A line's two corners get 1/2, its other weights are +0.
const LINE: Vec4 = Vec4 {
    x: 0.5,
    y: 0.5,
    z: 0.0,
    w: 0.0,
};

const SQUARE: Vec4 = Vec4 {
    x: 0.25,
    y: 0.25,
    z: 0.25,
    w: 0.25,
};

const CUBE: Vec4 = Vec4 {
    x: 0.125,
    y: 0.125,
    z: 0.125,
    w: 0.125,
};

impl Rule<2> for Columns {
    ghost gives = { column_rule LINE_WEIGHTS };

    fn result(corners: [Vec4; 2]) -> Vec4
        ensures { result ≡ column_rule LINE_WEIGHTS corners }
    {
        column_rule(&corners, LINE)
    }
}

impl Rule<4> for Columns {
    ghost gives = { column_rule SQUARE_WEIGHTS };

    fn result(corners: [Vec4; 4]) -> Vec4
        ensures { result ≡ column_rule SQUARE_WEIGHTS corners }
    {
        column_rule(&corners, SQUARE)
    }
}

// A cube adds the rule for corners 0 to 3 and that for 4 to 7.
impl Rule<8> for Columns {
    ghost gives = { cube_rule };

    fn result(corners: [Vec4; 8]) -> Vec4
        ensures { result ≡ cube_rule corners }
    {
        let low = column_rule(&corners[..4], CUBE);
        let high = column_rule(&corners[4..], CUBE);
        low.add(high)
    }
}

// The position of corner k, and +0 where there is none.
fn corner_or_zero(corners: &[Vec4], k: usize) -> Vec4
    ensures { result ≡ get_or corners.now k Points4.origin }
{
    corners.get(k).copied().unwrap_or(Vec4::zero())
}

// Section 1's column rule for the first four corners.
fn column_rule(corners: &[Vec4], weights: Vec4) -> Vec4
    ensures { result ≡ column_rule weights corners.now }
{
    let a = corner_or_zero(corners, 0);
    let b = corner_or_zero(corners, 1);
    let c = corner_or_zero(corners, 2);
    let d = corner_or_zero(corners, 3);
    columns(a, b, c, d, weights)
}

// The positions of an element's corners.
pub(crate) fn points<const N: usize>(positions: &[f32], corners: &[u32], count: usize) -> [Vec4; N]
    requires count_in_bounds { 4 * count ≤ length positions.now }
    requires number { length corners.now ≡ N }
    requires corners { (k : ℕ) → k < length corners.now → get_or corners.now k 0 < count }
    ensures { result ≡ map (point_row positions.now) corners.now }
{
    let mut points = [Vec4::zero(); N];
    for k in 0..N {
        points[k] = point_at(positions, word(corners, k));
    }
    points
}
