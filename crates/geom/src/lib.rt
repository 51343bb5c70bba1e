// The types that every crate of the engine shares. What the engine is to do stands in specs/ as definitions, the laws of them in proofs/.
#![tactic(auto)]

pub mod answer;
pub mod bench;
pub mod kind;
pub mod parity;
pub mod refusal;
pub mod vertex;
pub mod words;
