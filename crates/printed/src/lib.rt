// The rows of the answers, written to standard output through one buffer.
// Each row says what it displays, and the sink that what it holds has grown by that.
#![tactic(auto)]

pub mod rows;
pub mod sink;
pub mod whole;
