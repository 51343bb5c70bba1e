// The fields and rows of a file, each read whole and then judged, one after the other. Nothing is written.
#![tactic(auto)]

pub mod field;
pub mod listed;
pub mod rows;
