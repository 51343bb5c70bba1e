// What the entries answer with.
use crate::kind::Kind;
use crate::refusal::Refusal;

// How many entries each list has. A count bounds the loops over lent slices and is held against their lengths, which are usize, so a
// count is one too and is never cast there; a caller may state any number.
#[derive(Clone, Copy, PartialEq, Eq)]
pub struct Sizes {
    pub vertices: usize,
    pub points: usize,
    pub lines: usize,
    pub areas: usize,
    pub volumes: usize,
    pub curves: usize,
    pub curve_vertices: usize,
}

// A refinement's answer: passes, sizes and how it ended.
#[derive(Clone, Copy)]
pub struct Refined {
    pub passes: u8,
    pub sizes: Sizes,
    pub ended: Result<(), Refusal>,
}

// The answer of triangulation: the sizes of the mesh that the caller has afterwards, and how it ended.
#[derive(Clone, Copy)]
pub struct Answer {
    pub sizes: Sizes,
    pub ended: Result<(), Refusal>,
}

// The answer of reading: the sizes of the mesh that was read, all 0 after a refusal, and its kind or the refusal.
#[derive(Clone, Copy)]
pub struct Reading {
    pub sizes: Sizes,
    pub opened: Result<Kind, Refusal>,
}
