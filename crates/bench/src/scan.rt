// Calls with a long history of which nothing is wanted. `scan-ns` is what each of its entries costs, which are complete, hold no NaN and
// have a trial that is not open: an entry that is read and passed over.
use crate::campaign::unit_interval;
use crate::work::{Timed, best};
use de::sample::sample_slices;
use history::TrialState;
use state::State;
use std::io;
use std::time::Clock;

fn best_told(
    rt: &impl Clock,
    state: State,
    numbers: &[u64],
    values: &[f64],
    states: &[TrialState],
) -> io::Result<Timed> {
    best(rt, state, |s| {
        sample_slices(s, unit_interval(), 2, numbers, values, states).state
    })
}

// What 100,000 entries of a trial that is not open add to a call.
pub fn scan(rt: &impl Clock, state: State) -> io::Result<Timed> {
    let numbers = [0u64; 100000];
    let values = [1.0f64; 100000];
    let states = [TrialState::Complete; 100000];
    let long = best_told(rt, state, &numbers, &values, &states)?;
    let short = best_told(rt, state, &[], &[], &[])?;
    Ok(Timed {
        ns: long.ns.saturating_sub(short.ns),
        word: long.word,
        n_trials: long.n_trials,
    })
}
