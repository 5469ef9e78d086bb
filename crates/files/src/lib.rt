// The calls on files in numbers: what crosses to callers of the save call, the restore call and the read call.
#![tactic(auto)]

pub mod file;
pub mod read;
