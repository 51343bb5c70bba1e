// The list rules of a pass that both kinds share, over lent words. The old lists are read on one bench and the new ones written on
// the other; the book goes through all of them. Each function stops at the first thing that does not fit and says so.
#![tactic(auto)]

pub mod curves;
pub mod elements;
pub mod lines;
pub mod rules;
