// What crosses to other languages as numbers and words: the sizes that a caller states, the answers of the engine, and a vector that is normalised
// in its place.
#![tactic(auto)]

pub mod normal;
pub mod opening;
pub mod words;
