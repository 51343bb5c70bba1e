// The judge of a mesh in memory. Nothing is written.
#![tactic(auto)]

pub mod counts;
pub mod mesh;
pub mod words;
