// Closing calls, each timed by itself at the end of a generation.
use crate::campaign::{trials, unit_interval};
use crate::clock::{now, since};
use crate::draws::drawn;
use crate::work::Timed;
use de::sample::sample_slices;
use history::TrialState;
use state::State;
use std::io;
use std::time::Clock;

// A campaign with every slot's trial open: the trial that closes the generation, and the least time of a closing so far.
#[derive(Clone, Copy)]
pub struct Campaign {
    pub state: State,
    pub next: u64,
    pub ns: u64,
}

// The closing call: its history has the results of the first N open trials, complete and drawn.
fn closing(rt: &impl Clock, c: Campaign) -> io::Result<Campaign> {
    let state = c.state;
    let numbers = state.trials.map(|trial| trial.number);
    let values = drawn::<f64, 224, _>(state.word, 0.0, rng_util::unit);
    let states = [TrialState::Complete; 224];
    let n = state.n.min(224);
    let from = now(rt)?;
    let s = sample_slices(
        state,
        unit_interval(),
        c.next,
        &numbers[..n],
        &values[..n],
        &states[..n],
    );
    let ns = since(rt, from)?;
    Ok(Campaign {
        state: s.state,
        next: c.next,
        ns: c.ns.min(ns),
    })
}

// A closing, and the calls that open the next generation's other trials.
fn generation(rt: &impl Clock, c: Campaign) -> io::Result<Campaign> {
    let d = closing(rt, c)?;
    let after = d.state;
    let end = c.next.wrapping_add(after.n as u64);
    let state = trials(after, c.next.wrapping_add(1), end);
    Ok(Campaign {
        state,
        next: end,
        ns: d.ns,
    })
}

// The least time of fifty closings, the first of which stores and the others select.
pub fn best_closing(rt: &impl Clock, state: State, next: u64) -> io::Result<Timed> {
    let start = Campaign {
        state,
        next,
        ns: u64::MAX,
    };
    let c = (0..50).try_fold(start, |c, _| generation(rt, c))?;
    Ok(Timed {
        ns: c.ns,
        word: c.state.word,
        n_trials: c.state.n_trials,
    })
}
