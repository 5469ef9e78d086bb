// The lines that `replay` reads, and what they say to the history and the kept file. What they ask is handed on.
#![tactic(auto)]

ghost use Rattle.std.specs.Prelude.{◌≡◌};
ghost use Rattle.lines.specs.declared.Stop.TheVariants.{Unwritten};

use std::fmt;

pub mod entries;
pub mod kept;
pub mod reader;
pub mod told;

// Why a run ends before its script does.
#[derive(Clone, Copy)]
pub enum Stop {
    // A line breaks the rules.
    Malformed,
    // Standard input cannot be read.
    Unread,
    // Standard output cannot be written.
    Unwritten,
}

// Nothing else is formatted than what is written to standard output.
impl From<fmt::Error> for Stop {
    ghost from_gives = { λ error stop. stop ≡ Unwritten };

    fn from(_: fmt::Error) -> Stop {
        Stop::Unwritten
    }
}
