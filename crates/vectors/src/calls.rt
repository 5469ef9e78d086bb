// Calls of the sampler with an empty history. `bench` has some like them, and like those in `dimensions`: a crate for both would be no plainer.
use crate::answers::refused;
use crate::given::unit_interval;
use crate::show::figure;
use de::Sampled;
use de::build::{DESamplerBuilder, new_state};
use de::sample::sample_slices;
use distribution::Distribution;
use state::State;
use std::io;

// The state that an accepted set-up with this size returns.
pub fn fresh(size: u64) -> State {
    let b = DESamplerBuilder::new().population_size(size).seed(7);
    new_state(b.setup)
}

pub fn call(state: State, d: Distribution, trial: u64) -> Sampled {
    sample_slices(state, d, trial, &[], &[], &[])
}

// One call of a trial.
pub fn one_more(state: State, trial: u64) -> State {
    call(state, unit_interval(), trial).state
}

// Discovery of one dimension by trial 1, ended by trial 2.
pub fn discovered(size: u64) -> State {
    let first = one_more(fresh(size), 1);
    one_more(first, 2)
}

// A call each of the trials from..end.
pub fn trials(state: State, from: u64, end: u64) -> State {
    (from..end).fold(state, one_more)
}

// The figure of a call that is refused with this number.
pub fn refusal(
    rt: &impl Print,
    name: &str,
    state: State,
    d: Distribution,
    trial: u64,
    n: u64,
) -> io::Result<()> {
    figure(rt, name, refused(&state, call(state, d, trial), n))
}
