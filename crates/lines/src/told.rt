// What the lines of a script leave behind. Lines that concern the history or the kept file alone are settled here.
ghost use Rattle.std.specs.Prelude.{◌≡◌, [], IfOk};
ghost use Rattle.script.specs.Commands.{command_of};
ghost use Rattle.lines.specs.Hearing.{Hears, TakenIn};

use crate::Stop;
use crate::entries::{History, tell};
use crate::kept::{Kept, make, put};
use crate::reader::Reader;
use filled::Filled;
use history::{CompletedTrial, TrialState};
use script::{Command, Question, parse};
use std::io::Read;

#[derive(Drop)]
pub struct Told {
    pub history: History,
    pub file: Kept,
}

impl Told {
    pub fn new() -> Self
        ensures history { result.history ≡ [] }
        ensures file { result.file ≡ [] }
    {
        let none = CompletedTrial {
            number: 0,
            value: 0.0,
            state: TrialState::Complete,
        };
        Told {
            history: Filled::new(none),
            file: Filled::new(0),
        }
    }

    // What a line asks; none where it is settled.
    pub fn hear(&mut self, line: &[u8]) -> Result<Option<Question>, Stop>
        ensures { Hears line.now (command_of line.now) self.old self.new result }
    {
        match parse(line).ok_or(Stop::Malformed)? {
            Command::Skip => {}
            Command::Clear => self.history.clear(),
            Command::Tell(entry) => tell(&mut self.history, entry)?,
            Command::File(length) => make(&mut self.file, length)?,
            Command::Put(at) => put(&mut self.file, line, at)?,
            Command::Ask(question) => return Ok(Some(question)),
        }
        Ok(None)
    }

    // Takes in lines up to the next one that asks something; none where the script has ended.
    pub fn next_question<R: Read>(&mut self, from: &mut Reader<R>) -> Result<Option<Question>, Stop>
        ensures { IfOk result (λ asked. TakenIn self.old self.new asked) }
    {
        // A proved loop has to end, and nothing says that the input does.
        for _ in 0..u64::MAX {
            let Some(line) = from.next_line()? else {
                return Ok(None);
            };
            if let Some(question) = self.hear(line)? {
                return Ok(Some(question));
            }
        }
        Ok(None)
    }
}
