// The lines of a campaign script: what one line says.
#![tactic(auto)]

mod command;
mod fields;
mod hex;
mod words;

pub use command::{Command, Question, parse};
pub use hex::put_bytes;
