// The set-up call.
ghost use Rattle.std.specs.Prelude.{◌≡◌};
ghost use Rattle.edge.specs.Build.{settled_setup, fresh_flat};

use crate::answers::DeAnswer;
use crate::flat::{DeDistribution, DeSetup, DeState};
use candidates::Candidate;
use de::build::DESamplerBuilder;
use distribution::DimensionInfo;
use evolution::Setup;
use selection::blank_member;
use state::TrialProgress;

// The set-up that a state is made from: only an accepted one.
#[tactic(auto, unfolding(crate::specs::Build::settled_setup))]
pub fn settle_setup(setup: DeSetup) -> Result<Setup, DeAnswer>
    ensures { result ≡ settled_setup setup }
{
    let setup = Setup::try_from(setup)?;
    let built = DESamplerBuilder { setup }.build()?;
    Ok(built)
}

// The fresh state in numbers, written out: a caller that only sets up has nothing to flatten, and a state on the move is 67 KB.
#[tactic(auto, unfolding(crate::specs::Build::fresh_flat, crate::specs::Flat::flat_of, crate::specs::Flat::flat_distribution, de::specs::Build::fresh_state, state::specs::View::laid, ledger::specs::State::fresh))]
pub fn fresh(setup: Setup) -> DeState
    ensures { result ≡ fresh_flat setup }
{
    DeState {
        setup: DeSetup::from(setup),
        named: 0,
        first: 0,
        discovered: 0,
        n: 0,
        n_dims: 0,
        dims: [DeDistribution::from(DimensionInfo::blank().distribution); 16],
        candidates: [Candidate::blank(); 224],
        parents: [blank_member(); 160],
        n_trials: 0,
        trials: [TrialProgress::blank(); 224],
        best: 0,
        word: setup.seed,
        closed: 0,
        idle: 0,
    }
}
