// The words of each kind of records, and a state from its words (docs/SAVED.md, "The six kinds").
#![tactic(auto)]

pub mod kind;
pub mod rows;
pub mod section;
pub mod sections;
pub mod vectors;
