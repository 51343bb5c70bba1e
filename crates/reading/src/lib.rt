// The reader that is set up over one file and walks it, and what the file is found to be. Nothing is written.
#![tactic(auto)]

pub mod judging;
pub mod part;
pub mod reader;
pub mod walk;
