// A state in numbers again. Fields that a kind does not use are 0.
ghost use Rattle.std.specs.Prelude.{◌≡◌, map};
ghost use Rattle.edge.specs.Flat.{flat_setup, flat_none, flat_distribution, flat_dim, flat_of};

use crate::flat::{DeDistribution, DeSetup, DeState};
use distribution::{DimensionInfo, Distribution};
use evolution::Setup;
use state::State;

impl From<Setup> for DeSetup {
    ghost from_gives = { λ s flat. flat ≡ flat_setup s };

    #[tactic(auto, unfolding(crate::specs::Flat::flat_setup))]
    fn from(s: Setup) -> Self {
        DeSetup {
            mutation_factor: s.mutation_factor,
            crossover_rate: s.crossover_rate,
            strategy: s.strategy.number(),
            sized: u64::from(s.population_size.is_some()),
            population_size: s.population_size.unwrap_or(0),
            seed: s.seed,
            bounds_rule: s.bounds_rule.number(),
        }
    }
}

impl DeDistribution {
    // Every field is 0: spelt out once, here, as an answer's in `answers`.
    pub fn none() -> Self
        ensures { result ≡ flat_none }
    {
        DeDistribution {
            kind: 0,
            low: 0.0,
            high: 0.0,
            whole_low: 0,
            whole_high: 0,
            log_scale: 0,
            stepped: 0,
            step: 0.0,
            whole_step: 0,
            n_choices: 0,
        }
    }
}

impl From<Distribution> for DeDistribution {
    ghost from_gives = { λ d flat. flat ≡ flat_distribution d };

    #[tactic(auto, unfolding(crate::specs::Flat::flat_distribution))]
    fn from(d: Distribution) -> Self {
        match d {
            Distribution::Float(f) => DeDistribution {
                kind: 1,
                low: f.low,
                high: f.high,
                log_scale: u64::from(f.log_scale),
                stepped: u64::from(f.step.is_some()),
                step: f.step.unwrap_or(0.0),
                ..DeDistribution::none()
            },
            Distribution::Int(i) => DeDistribution {
                kind: 2,
                whole_low: i.low,
                whole_high: i.high,
                log_scale: u64::from(i.log_scale),
                stepped: u64::from(i.step.is_some()),
                whole_step: i.step.unwrap_or(0),
                ..DeDistribution::none()
            },
            Distribution::Categorical(c) => DeDistribution {
                kind: 3,
                n_choices: c.n_choices,
                ..DeDistribution::none()
            },
        }
    }
}

fn flatten_dims(dims: [DimensionInfo; 16]) -> [DeDistribution; 16]
    ensures { result ≡ map flat_dim dims }
{
    dims.map(|d| DeDistribution::from(d.distribution))
}

#[tactic(auto, unfolding(crate::specs::Flat::flat_of))]
pub fn flatten(s: State) -> DeState
    ensures { result ≡ flat_of s }
{
    DeState {
        setup: DeSetup::from(s.setup),
        named: u64::from(s.first.is_some()),
        first: s.first.unwrap_or(0),
        discovered: u64::from(s.discovered),
        n: s.n,
        n_dims: s.n_dims,
        dims: flatten_dims(s.dims),
        candidates: s.candidates,
        parents: s.parents,
        n_trials: s.n_trials,
        trials: s.trials,
        best: s.best,
        word: s.word,
        closed: s.closed,
        idle: s.idle,
    }
}
