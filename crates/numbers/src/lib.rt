// Binary32 points and the square root. A point goes through functions by value; each step rounds once,
// left to right, and each contract gives the result bit for bit.
#![tactic(auto)]

pub mod normal;
pub mod root;
pub mod vec3;
pub mod vec4;
pub mod vector;
