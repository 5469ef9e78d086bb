// The states that are measured: every slot's trial open, none of them told.
// The program `vectors` has a `call`, `trials` and `discover` of its own: a crate for three functions of a line or two each would be no plainer.
use de::build::{DESamplerBuilder, new_state};
use de::sample::sample_slices;
use distribution::{Distribution, FloatDistribution};
use evolution::BoundsRule;
use state::State;

// Float 0..1.
pub fn unit_interval() -> Distribution {
    Distribution::Float(FloatDistribution {
        low: 0.0,
        high: 1.0,
        log_scale: false,
        step: None,
    })
}

// One call of a trial, with an empty history.
pub fn call(state: State, trial: u64) -> State {
    sample_slices(state, unit_interval(), trial, &[], &[], &[]).state
}

// k calls of trial 1.
fn discover(state: State, k: u64) -> State {
    (0..k).fold(state, |s, _| call(s, 1))
}

// A call each of the trials from..end.
pub fn trials(state: State, from: u64, end: u64) -> State {
    (from..end).fold(state, call)
}

// k dimensions, and the trials 2..end open.
pub fn open(seed: u64, k: u64, end: u64) -> State {
    let builder = DESamplerBuilder::new().seed(seed);
    trials(discover(new_state(builder.setup), k), 2, end)
}

// The same state, its bounds rule midpoint.
pub fn with_midpoint(state: State) -> State {
    let mut s = state;
    s.setup.bounds_rule = BoundsRule::Midpoint;
    s
}
