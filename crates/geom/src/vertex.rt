// A vertex has a position, four boundary flags, a tag and k. The position is a struct inside the vertex, and
// both go through functions by value.
use numbers::vec4::Vec4;

#[derive(Clone, Copy)]
pub struct Vertex {
    pub position: Vec4,
    // Bit i is axis i; none of the higher bits is set in an accepted mesh.
    pub flags: u32,
    // Any word.
    pub tag: u32,
    // Any word. Where a midpoint is made, the end with the smaller one gives it tag and k.
    pub k: u32,
}
