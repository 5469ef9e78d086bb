// One of each struct that crosses, so that callers can hold their own layouts against the library's.
#![tactic(auto)]

pub mod marks;
pub mod numbered;
