// What is timed in batches: plain copies of the state, and calls that neither close nor end discovery.
use crate::clock::{now, since};
use state::State;
use std::io;
use std::time::Clock;

// The time that work took, and what it left: the generator's word, and how many trials are open.
#[derive(Clone, Copy)]
pub struct Timed {
    pub ns: u64,
    pub word: u64,
    pub n_trials: usize,
}

// Which of two places is written is drawn, so the compiler cannot tell that both hold the same.
// By the word and not by a `Gen`, which counts its draws up to 2^63: `turns` may be more.
pub fn copies(state: State, turns: u64) -> State {
    let mut pair = [state; 2];
    let mut word = state.word;
    for _ in 0..turns {
        let drawn = rng_util::next(word);
        word = drawn.word;
        let to = (drawn.output % 2) as usize;
        pair[to] = pair[1 - to];
    }
    pair[0]
}

// The least time of fifty runs of some work. Each starts from the same state, but for the word that the one before left. `best_pass` and
// `best_closing` hand other things on, a sum and a campaign, so this is not one function with them. The clock is the program's handle, and
// no part of a state.
pub fn best<F: Fn(State) -> State>(rt: &impl Clock, state: State, work: F) -> io::Result<Timed>
    requires { F.IsAlwaysCallable work }
{
    let mut s = state;
    let mut best = Timed {
        ns: u64::MAX,
        word: state.word,
        n_trials: 0,
    };
    for _ in 0..50 {
        let from = now(rt)?;
        let after = work(s);
        let ns = since(rt, from)?;
        s.word = after.word;
        best = Timed {
            ns: best.ns.min(ns),
            word: after.word,
            n_trials: after.n_trials,
        };
    }
    Ok(best)
}
