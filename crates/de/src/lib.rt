// The differential evolution sampler (sampler/de.rs): set-up and sample.
#![tactic(auto)]

pub mod ask;
pub mod build;
pub mod ceiling;
pub mod sample;

use distribution::{ParamValue, Refusal};
use state::State;

// A refusal has no setting, counts zero draws and hands back the state that came in: a promise to callers, so it is no Result.
#[derive(Clone, Copy)]
pub struct Sampled {
    pub answer: Result<ParamValue, Refusal>,
    pub state: State,
    pub draws: u64,
}
