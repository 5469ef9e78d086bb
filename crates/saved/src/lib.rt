// The whole state as a saved file, and back (document 02, W2).
#![tactic(auto)]

ghost use Rattle.std.specs.Prelude.{◌≡◌, length, map};
ghost use Rattle.records.specs.Chain.{walk, Walks};
ghost use Rattle.records.specs.Tables.{table_of};
ghost use Rattle.kinds.specs.Kinds.{kind_number};
ghost use Rattle.saved.specs.Restore.{file_refusal_number, content_of, state_read, restore_of};
ghost use Rattle.saved.specs.Save.{save_of, saved_in};

mod compared;
mod written;

use crate::compared::kinds_hold;
use crate::written::{put_state, record_total};
use kinds::kind::Kind;
use kinds::sections::has_place;
use opened::state_in;
use records::Table;
use records::chain::{chain_length, collect};
use state::State;

// 12: an empty file, a length that is no multiple of 32, a next index past the end, a record met twice, a lent file too
// short. 13: a state that is not sound or that a file has no place for, or records that are not those of a sound state.
#[derive(Clone, Copy, Debug, PartialEq, Eq)]
pub enum FileRefusal {
    BadFile,
    BadContent,
}

impl FileRefusal {
    // The number that callers know a file's refusal by: a table of document 02, case by case.
    pub fn number(self) -> u64
        ensures { result ≡ file_refusal_number self }
    {
        match self {
            FileRefusal::BadFile => 12,
            FileRefusal::BadContent => 13,
        }
    }
}

// The state that the file holds; where it is refused, the one that came in. Not the Result that `read` gives: that a refusal hands
// back the state that came in is a promise to callers.
#[derive(Clone, Copy)]
pub struct Restored {
    pub answer: Result<(), FileRefusal>,
    pub state: State,
}

// Writes the state's records and nothing past them; answers the file's length in bytes, or why nothing was written.
pub fn save(state: &State, file: &mut [u8]) -> Result<usize, FileRefusal>
    ensures { (result ≡ save_of state.now (length file.old)) × (file.new ≡ saved_in state.now file.old) }
{
    if !state.is_sound() || !has_place(state) {
        return Err(FileRefusal::BadContent);
    }
    let count = record_total(state);
    if file.len() < 32 * count {
        return Err(FileRefusal::BadFile);
    }
    put_state(file, count, state);
    Ok(32 * count)
}

// The table of each kind, of the `count` records on the chain. They are lent, since six tables on the move are 180 KB.
// Not a zip with `tables.iter_mut()`: tried, and `returns` stays open, since nothing is known then of what the loop wrote.
#[tactic(auto, using(std::proofs::lemmas::Grind::common_steps))]
fn collect_kinds(tables: &mut [Table; 6], file: &[u8], count: usize)
    requires { Walks file.now count 0 }
    ensures { tables.new ≡ map (λ kind. table_of (kind_number kind) (walk file.now count 0)) Kind.ALL }
{
    for (k, kind) in Kind::ALL.iter().enumerate() {
        tables[k] = collect(file, count, kind.number());
    }
}

// The state of the `count` records on the chain.
fn content_of(file: &[u8], count: usize) -> Result<State, FileRefusal>
    requires { Walks file.now count 0 }
    ensures { result ≡ content_of (walk file.now count 0) }
{
    let mut tables = [Table::new(); 6];
    collect_kinds(&mut tables, file, count);
    let state = state_in(&tables);
    if state.is_sound() && count == record_total(&state) && kinds_hold(&state, &tables) {
        Ok(state)
    } else {
        Err(FileRefusal::BadContent)
    }
}

// The state that the file holds, or why it holds none.
#[tactic(auto, using(crate::proofs::Reader::reads))]
pub fn read(file: &[u8]) -> Result<State, FileRefusal>
    ensures { result ≡ state_read file.now }
{
    if file.is_empty() || file.len() % 32 != 0 {
        return Err(FileRefusal::BadFile);
    }
    let count = chain_length(file).ok_or(FileRefusal::BadFile)?;
    content_of(file, count)
}

// The state of the file; where it is refused, the one that came in.
#[tactic(auto, unfolding(crate::specs::Restore::restore_of))]
pub fn restore(old: State, file: &[u8]) -> Restored
    ensures { result ≡ restore_of old file.now }
{
    match read(file) {
        Ok(state) => Restored {
            answer: Ok(()),
            state,
        },
        Err(why) => Restored {
            answer: Err(why),
            state: old,
        },
    }
}
