// The sampler's set-up, distributions and state in numbers: no enum can cross to C. What a number stands for is said at each
// field; where one names no case, what it stands in opens to nothing.
ghost use Rattle.std.specs.Prelude.{◌≡◌, map, eqb, leb};
ghost use Rattle.distribution.specs.declared.Refusal.TheVariants.{StateNotSound};
ghost use Rattle.ledger.specs.Words.{all};
ghost use Rattle.edge.specs.Flat.{strategy_of, rule_of, option_of, setup_of, distribution_of, dim_of, open_with};
ghost use Rattle.edge.specs.Known.{named, known_setup, known_distribution, opened_in};

use candidates::Candidate;
use distribution::{
    CategoricalDistribution, DimensionInfo, Distribution, FloatDistribution, IntDistribution,
    Refusal,
};
use evolution::{BoundsRule, DEStrategy, Member, Setup};
use state::{State, TrialProgress};

// strategy: 0 rand1, 1 best1, 2 current-to-best1. sized: 0 no size is set, 1 population_size is. bounds_rule: 0 clamp, 1 midpoint; it
// stands last, so that a set-up that C fills in by position, or with zeros behind what it names, has clamp.
#[repr(C)]
#[derive(Clone, Copy)]
pub struct DeSetup {
    pub mutation_factor: f64,
    pub crossover_rate: f64,
    pub strategy: u64,
    pub sized: u64,
    pub population_size: u64,
    pub seed: u64,
    pub bounds_rule: u64,
}

// kind: 1 float, 2 int, 3 choice. log_scale and stepped: 0 or 1. Fields that the kind does not use are not read.
#[repr(C)]
#[derive(Clone, Copy)]
pub struct DeDistribution {
    pub kind: u64,
    pub low: f64,
    pub high: f64,
    pub whole_low: i64,
    pub whole_high: i64,
    pub log_scale: u64,
    pub stepped: u64,
    pub step: f64,
    pub whole_step: i64,
    pub n_choices: u64,
}

// `State` field by field: C fills in any counts beside the arrays. named: 0 no first trial yet, 1 `first` is its number. discovered: 0 or 1.
#[repr(C)]
#[derive(Clone, Copy)]
pub struct DeState {
    pub setup: DeSetup,
    pub named: u64,
    pub first: u64,
    pub discovered: u64,
    pub n: usize,
    pub n_dims: usize,
    pub dims: [DeDistribution; 16],
    pub candidates: [Candidate; 224],
    pub parents: [Member; 160],
    pub n_trials: usize,
    pub trials: [TrialProgress; 224],
    pub best: usize,
    pub word: u64,
    pub closed: u32,
    pub idle: u32,
}

// A number that names no case.
#[derive(Clone, Copy)]
pub struct Unnamed;

// In a state it is refusal 0: a state with such a number is not sound.
impl From<Unnamed> for Refusal {
    ghost from_gives = { λ _ why. why ≡ StateNotSound };

    fn from(_: Unnamed) -> Self {
        Refusal::StateNotSound
    }
}

// 0 is no, 1 is yes.
fn flag(number: u64) -> Result<bool, Unnamed>
    ensures { result ≡ named (leb number 1) (eqb number 1) }
{
    match number {
        0 => Ok(false),
        1 => Ok(true),
        _ => Err(Unnamed),
    }
}

// A value that there is where the flag beside it is 1.
fn option<T: Copy>(set: u64, value: T) -> Result<Option<T>, Unnamed>
    ensures { result ≡ named (leb set 1) (option_of set value) }
{
    Ok(flag(set)?.then_some(value))
}

// The strategy that C's number stands for; any other number stands for none.
pub fn strategy_in(strategy: u64) -> Result<DEStrategy, Unnamed>
    ensures { result ≡ named (leb strategy 2) (strategy_of strategy) }
{
    DEStrategy::from_number(strategy).ok_or(Unnamed)
}

// What C's numbers open to, also where one names no case: this and the next two cannot fail. No call of the library goes by them, since
// each number is judged there (`strategy_in`, and `TryFrom` below).
pub fn open_strategy(strategy: u64) -> DEStrategy
    ensures { result ≡ strategy_of strategy }
{
    DEStrategy::from_number(strategy).unwrap_or(DEStrategy::CurrentToBest1)
}

#[tactic(auto, unfolding(crate::specs::Flat::setup_of))]
pub fn open_setup(s: DeSetup) -> Setup
    ensures { result ≡ setup_of s }
{
    Setup {
        mutation_factor: s.mutation_factor,
        crossover_rate: s.crossover_rate,
        strategy: open_strategy(s.strategy),
        population_size: (s.sized != 0).then_some(s.population_size),
        seed: s.seed,
        bounds_rule: BoundsRule::from_number(s.bounds_rule).unwrap_or(BoundsRule::Midpoint),
    }
}

#[tactic(auto, unfolding(crate::specs::Flat::distribution_of))]
pub fn open_distribution(d: DeDistribution) -> Distribution
    ensures { result ≡ distribution_of d }
{
    match d.kind {
        1 => Distribution::Float(FloatDistribution {
            low: d.low,
            high: d.high,
            log_scale: d.log_scale == 1,
            step: (d.stepped != 0).then_some(d.step),
        }),
        2 => Distribution::Int(IntDistribution {
            low: d.whole_low,
            high: d.whole_high,
            log_scale: d.log_scale == 1,
            step: (d.stepped != 0).then_some(d.whole_step),
        }),
        _ => Distribution::Categorical(CategoricalDistribution {
            n_choices: d.n_choices,
        }),
    }
}

// The bounds rule that C's number stands for, likewise.
fn open_rule(rule: u64) -> Result<BoundsRule, Unnamed>
    ensures { result ≡ named (leb rule 1) (rule_of rule) }
{
    BoundsRule::from_number(rule).ok_or(Unnamed)
}

impl TryFrom<DeSetup> for Setup {
    type Error = Unnamed;

    ghost try_from_gives = { λ s opened. opened ≡ named (known_setup s) (setup_of s) };

    #[tactic(auto, unfolding(crate::specs::Flat::setup_of, crate::specs::Known::known_setup))]
    fn try_from(s: DeSetup) -> Result<Self, Unnamed> {
        Ok(Setup {
            mutation_factor: s.mutation_factor,
            crossover_rate: s.crossover_rate,
            strategy: strategy_in(s.strategy)?,
            population_size: option(s.sized, s.population_size)?,
            seed: s.seed,
            bounds_rule: open_rule(s.bounds_rule)?,
        })
    }
}

// A choice has neither scale nor step.
impl TryFrom<DeDistribution> for Distribution {
    type Error = Unnamed;

    ghost try_from_gives = { λ d opened. opened ≡ named (known_distribution d) (distribution_of d) };

    #[tactic(auto, unfolding(crate::specs::Flat::distribution_of, crate::specs::Known::known_distribution))]
    fn try_from(d: DeDistribution) -> Result<Self, Unnamed> {
        match d.kind {
            1 => Ok(Distribution::Float(FloatDistribution {
                low: d.low,
                high: d.high,
                log_scale: flag(d.log_scale)?,
                step: option(d.stepped, d.step)?,
            })),
            2 => Ok(Distribution::Int(IntDistribution {
                low: d.whole_low,
                high: d.whole_high,
                log_scale: flag(d.log_scale)?,
                step: option(d.stepped, d.whole_step)?,
            })),
            3 => Ok(Distribution::Categorical(CategoricalDistribution {
                n_choices: d.n_choices,
            })),
            _ => Err(Unnamed),
        }
    }
}

fn open_dims(flat: &[DeDistribution; 16]) -> Result<[DimensionInfo; 16], Unnamed>
    ensures { result ≡ named (all known_distribution flat.now) (map dim_of flat.now) }
{
    flat.try_map(|d| {
        Ok(DimensionInfo {
            distribution: Distribution::try_from(d)?,
        })
    })
}

// What the numbers of a state stand for; the rest of it is the same on both sides.
#[derive(Clone, Copy)]
pub struct Opened {
    pub setup: Setup,
    pub first: Option<u64>,
    pub discovered: bool,
    pub dims: [DimensionInfo; 16],
}

impl TryFrom<&DeState> for Opened {
    type Error = Refusal;

    ghost try_from_gives = { λ s opened. opened ≡ opened_in s.now };

    #[tactic(auto, unfolding(crate::specs::Known::known_with, crate::specs::Known::opened_in))]
    fn try_from(s: &DeState) -> Result<Self, Refusal> {
        Ok(Opened {
            setup: Setup::try_from(s.setup)?,
            first: option(s.named, s.first)?,
            discovered: flag(s.discovered)?,
            dims: open_dims(&s.dims)?,
        })
    }
}

// The state. What can fail is opened apart: so this is small enough to be compiled into its callers, and the arrays are copied once.
// By a `try_from` of the whole state they were copied again at each `Result`, and a sample call took 60 KB of stack more.
#[tactic(auto, unfolding(crate::specs::Flat::open_with))]
pub fn open(s: &DeState, opened: Opened) -> State
    ensures { result ≡ open_with s.now opened }
{
    let dims = opened.dims;
    let candidates = s.candidates;
    let parents = s.parents;
    let trials = s.trials;
    State {
        setup: opened.setup,
        first: opened.first,
        discovered: opened.discovered,
        n: s.n,
        n_dims: s.n_dims,
        dims,
        candidates,
        parents,
        n_trials: s.n_trials,
        trials,
        best: s.best,
        word: s.word,
        closed: s.closed,
        idle: s.idle,
    }
}
