// The set-up: the Rust's builder, and the state that an accepted set-up returns.
ghost use Rattle.std.specs.Prelude.{◌≡◌};
ghost use Rattle.de.specs.Build.{defaults, with_size, with_factor, with_rate, with_strategy, with_seed, with_rule, built_of, built_refusal, setup_refusal, fresh_state};

use candidates::Candidate;
use distribution::{DimensionInfo, Refusal};
use evolution::{BoundsRule, DEStrategy, Setup};
use selection::blank_member;
use state::{State, TrialProgress};

#[derive(Clone, Copy)]
pub struct DESamplerBuilder {
    pub setup: Setup,
}

impl DESamplerBuilder {
    // F = 0.8, CR = 0.9, Rand1, no size, clamp; the seed is 0, since nothing is seeded at random.
    pub fn new() -> Self
        ensures { result ≡ defaults }
    {
        DESamplerBuilder {
            setup: Setup {
                mutation_factor: 0.8,
                crossover_rate: 0.9,
                strategy: DEStrategy::Rand1,
                population_size: None,
                seed: 0,
                bounds_rule: BoundsRule::Clamp,
            },
        }
    }

    pub fn population_size(mut self, size: u64) -> Self
        ensures { result ≡ with_size self size }
    {
        self.setup.population_size = Some(size);
        self
    }

    pub fn mutation_factor(mut self, f: f64) -> Self
        ensures { result ≡ with_factor self f }
    {
        self.setup.mutation_factor = f;
        self
    }

    pub fn crossover_rate(mut self, cr: f64) -> Self
        ensures { result ≡ with_rate self cr }
    {
        self.setup.crossover_rate = cr;
        self
    }

    pub fn strategy(mut self, strategy: DEStrategy) -> Self
        ensures { result ≡ with_strategy self strategy }
    {
        self.setup.strategy = strategy;
        self
    }

    pub fn seed(mut self, seed: u64) -> Self
        ensures { result ≡ with_seed self seed }
    {
        self.setup.seed = seed;
        self
    }

    // Clamp, as in the Rust, or midpoint (document 02, W7).
    pub fn bounds_rule(mut self, rule: BoundsRule) -> Self
        ensures { result ≡ with_rule self rule }
    {
        self.setup.bounds_rule = rule;
        self
    }

    // Refusals 1, 2 and 3, the first that applies.
    pub fn build(self) -> Result<Setup, Refusal>
        ensures { (result ≡ built_of self) × (built_refusal result ≡ setup_refusal self.setup) }
    {
        state::setup::validate_setup(self.setup)?;
        Ok(self.setup)
    }
}

// The fresh state: what an accepted set-up returns. Of a set-up that is not accepted the state is not sound.
#[tactic(auto, unfolding(crate::specs::Build::fresh_state, state::specs::View::laid, ledger::specs::State::fresh))]
pub fn new_state(setup: Setup) -> State
    ensures { result ≡ fresh_state setup }
{
    State {
        setup,
        first: None,
        discovered: false,
        n: 0,
        n_dims: 0,
        dims: [DimensionInfo::blank(); 16],
        candidates: [Candidate::blank(); 224],
        parents: [blank_member(); 160],
        n_trials: 0,
        trials: [TrialProgress::blank(); 224],
        best: 0,
        word: setup.seed,
        closed: 0,
        idle: 0,
    }
}
