// The calls that put a list into lent memory and report how long it is, in numbers: what crosses to callers of the sweep call.
#![tactic(auto)]

pub mod sweeps;
