// The two kinds of mesh, each with the number by which a file and C know it.
#[derive(Clone, Copy, PartialEq, Eq)]
pub enum Kind {
    Cubes = 0,
    Simplices = 1,
}
