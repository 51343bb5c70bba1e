// The vertex rules of a pass. Old vertices are copied to the other bench, new ones are made from the book's new
// pairs, and all are smoothed over the new lists.
#![tactic(auto)]

pub mod cells;
pub mod gather;
pub mod lists;
pub mod make;
pub mod pass;
pub mod rules;
pub mod settle;
mod smooth;
