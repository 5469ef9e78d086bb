// What a call wants of its history: the results of the first N open trials, if N are open; else only whether a value is NaN.
ghost use Rattle.std.specs.Prelude.{◌≡◌, ◌≤◌};
ghost use Rattle.de.specs.Ask.{wanted_count, first_numbers, least_of, most_of, asked_of};

use filled::padded::Padded;
use state::State;

// The wanted numbers, and between which numbers they lie.
#[derive(Clone, Copy)]
pub struct Asked {
    pub lo: u64,
    pub hi: u64,
    pub numbers: Padded<u64, 160>,
}

// How many results are wanted. A state that is not sound may have any counts: then none are.
fn wanted_count(state: &State) -> usize
    ensures is { result ≡ wanted_count state.now.discovered state.now.n state.now.n_trials }
    ensures few { result ≤ 160 }
{
    if state.discovered && state.n <= state.n_trials && state.n <= 160 {
        state.n
    } else {
        0
    }
}

// The two by a fold, as the definitions: std's `min` and `max` are options, and of no numbers there are a least and a most here too. Tried,
// and `returns` stays open: std says `reduce`, and the definition `fold`.
fn least(numbers: &[u64]) -> u64
    ensures { result ≡ least_of numbers.now }
{
    numbers.iter().fold(u64::MAX, |least, n| least.min(*n))
}

fn most(numbers: &[u64]) -> u64
    ensures { result ≡ most_of numbers.now }
{
    numbers.iter().fold(0, |most, n| most.max(*n))
}

// What the next call of a state wants. No number lies between lo and hi where none is wanted.
// Not over a part of the trials: tried, and `returns` stays open, since a lent state does not tell there how many places it has.
pub fn ask(state: &State) -> Asked
    ensures { result ≡ asked_of (first_numbers state.now.trials (wanted_count state.now.discovered state.now.n state.now.n_trials)) }
{
    let mut numbers = Padded::new();
    for i in 0..wanted_count(state) {
        numbers.push(state.trials[i].number);
    }
    Asked {
        lo: least(numbers.as_slice()),
        hi: most(numbers.as_slice()),
        numbers,
    }
}
