// The edge in numbers: the structs that cross to C and Rust callers, the state, set-up and calls that they stand for, and the answers
// to them. No enum can cross. Every struct is laid out as C lays it out.
#![tactic(auto)]

pub mod answers;
pub mod build;
pub mod flat;
pub mod flatten;
pub mod held;
pub mod internal;
pub mod look;
pub mod trial;
