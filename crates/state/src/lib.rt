// The sampler's state (sampler/de.rs, "Internal types"), and whether a state is sound.
#![tactic(auto)]

use candidates::Candidate;
use distribution::DimensionInfo;
use evolution::{Member, Setup};

pub mod lists;
pub mod places;
pub mod setup;
pub mod sound;
pub mod view;

// An open trial: its number, and the dimension that its next call gives. The i-th one has candidate i.
#[repr(C)]
#[derive(Clone, Copy, PartialEq, Eq)]
pub struct TrialProgress {
    pub number: u64,
    pub next_dim: usize,
}

impl TrialProgress {
    ghost use Rattle.std.specs.Prelude.{◌≡◌};
    ghost use Rattle.state.specs.Blank.{blank_trial};

    // No trial.
    pub fn blank() -> Self
        ensures { result ≡ blank_trial }
    {
        TrialProgress {
            number: 0,
            next_dim: 0,
        }
    }
}

// In use are n_dims dimensions, n_trials trials, after discovery n candidates and one for each trial past n, and n
// parents once a generation has closed. Unused places are as in a fresh state. Arrays with counts, as document 01 has them: C and a saved
// file hand in any count, one past the places too, which a `Filled` could not hold; and a state is `Copy`.
// `discovered` and `n` are no option: C and a saved file hand in any two of them, and a pair that disagrees is not sound.
#[derive(Clone, Copy)]
pub struct State {
    pub setup: Setup,
    pub first: Option<u64>,
    pub discovered: bool,
    pub n: usize,
    pub n_dims: usize,
    pub dims: [DimensionInfo; 16],
    pub candidates: [Candidate; 224],
    pub parents: [Member; 160],
    pub n_trials: usize,
    pub trials: [TrialProgress; 224],
    pub best: usize,
    pub word: u64,
    pub closed: u32,
    pub idle: u32,
}
