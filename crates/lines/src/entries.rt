// The history: what the `tell` lines said.
ghost use Rattle.std.specs.Prelude.{◌≡◌, length};
ghost use Rattle.lines.specs.History.{told_to, entry_told};

use crate::Stop;
use filled::Filled;
use history::CompletedTrial;

pub type History = Filled<CompletedTrial, 65536>;

// Appends an entry, where there is a place.
pub fn tell<const N: usize>(
    history: &mut Filled<CompletedTrial, N>,
    entry: CompletedTrial,
) -> Result<(), Stop>
    ensures value { result ≡ told_to N (length history.old) }
    ensures after { history.new ≡ entry_told N entry history.old }
{
    if history.room() == 0 {
        return Err(Stop::Malformed);
    }
    history.push(entry);
    Ok(())
}
