// The words of each part of a state, and each part from its words.
ghost use Rattle.std.specs.Prelude.{◌≡◌, ◌≤◌, length};
ghost use Rattle.kinds.specs.Rows.{word_option, setup_has_place, dim_has_place, setup_words, setup_in, dim_words, dim_in, trial_words, trial_in};

use common::places::{at_place, place};
use distribution::{
    CategoricalDistribution, DimensionInfo, Distribution, FloatDistribution, IntDistribution,
};
use evolution::{BoundsRule, DEStrategy, Setup};
use numbers::{bits_of, real};
use state::TrialProgress;

// A flag, and the value that there is then.
pub fn word_option(flag: u64, w: u64) -> Option<u64>
    ensures { result ≡ word_option flag w }
{
    (flag != 0).then_some(w)
}

// Whether the six words hold the whole set-up: none holds the bounds rule, and what is read has clamp.
pub fn setup_has_place(s: Setup) -> bool
    ensures { result ≡ setup_has_place s }
{
    match s.bounds_rule {
        BoundsRule::Clamp => true,
        BoundsRule::Midpoint => false,
    }
}

#[tactic(auto, unfolding(crate::specs::Rows::setup_words))]
pub fn setup_row(s: Setup) -> [u64; 6]
    ensures { result ≡ setup_words s }
{
    let size = s.population_size;
    [
        bits_of(s.mutation_factor),
        bits_of(s.crossover_rate),
        s.strategy.number(),
        u64::from(size.is_some()),
        size.unwrap_or(0),
        s.seed,
    ]
}

// A word that is no strategy's number is read as the last strategy, and differs when the words are compared.
#[tactic(auto, unfolding(crate::specs::Rows::setup_in))]
pub fn setup_in(row: &[u64]) -> Setup
    requires { 6 ≤ length row.now }
    ensures { result ≡ setup_in row.now }
{
    Setup {
        mutation_factor: real(row[0]),
        crossover_rate: real(row[1]),
        strategy: DEStrategy::from_number(row[2]).unwrap_or(DEStrategy::CurrentToBest1),
        population_size: word_option(row[3], row[4]),
        seed: row[5],
        bounds_rule: BoundsRule::Clamp,
    }
}

// How many words a dimension has.
pub const DIM_WIDTH: usize = 5;

// Whether the five words hold the whole dimension: none holds the log flag, and what is read has none. Of the sound dimensions a ladder
// alone has it.
pub fn dim_has_place(d: &DimensionInfo) -> bool
    ensures { result ≡ dim_has_place d.now }
{
    !d.distribution.is_ladder()
}

// How many words an open trial has.
pub const TRIAL_WIDTH: usize = 2;

// 1, 2 and 3 are the file's words for the three distributions, in these two functions and nowhere else.
#[tactic(auto, unfolding(crate::specs::Rows::dim_words))]
pub fn dim_row(d: DimensionInfo) -> [u64; DIM_WIDTH]
    ensures { result ≡ dim_words d }
{
    match d.distribution {
        Distribution::Float(f) => [
            1,
            bits_of(f.low),
            bits_of(f.high),
            u64::from(f.step.is_some()),
            f.step.map_or(0, bits_of),
        ],
        Distribution::Int(i) => [
            2,
            place(i.low),
            place(i.high),
            u64::from(i.step.is_some()),
            i.step.map_or(0, place),
        ],
        Distribution::Categorical(c) => [3, c.n_choices, 0, 0, 0],
    }
}

// Words by their place, as in the other two that read a row: a slice's pattern would want an arm for a shorter row.
#[tactic(auto, unfolding(crate::specs::Rows::dim_in))]
pub fn dim_in(row: &[u64]) -> DimensionInfo
    requires { 5 ≤ length row.now }
    ensures { result ≡ dim_in row.now }
{
    let low = row[1];
    let high = row[2];
    let step = word_option(row[3], row[4]);
    let distribution = match row[0] {
        1 => Distribution::Float(FloatDistribution {
            low: real(low),
            high: real(high),
            log_scale: false,
            step: step.map(real),
        }),
        2 => Distribution::Int(IntDistribution {
            low: at_place(low),
            high: at_place(high),
            log_scale: false,
            step: step.map(at_place),
        }),
        _ => Distribution::Categorical(CategoricalDistribution { n_choices: low }),
    };
    DimensionInfo { distribution }
}

#[tactic(auto, unfolding(crate::specs::Rows::trial_words))]
pub fn trial_row(t: TrialProgress) -> [u64; TRIAL_WIDTH]
    ensures { result ≡ trial_words t }
{
    [t.number, t.next_dim as u64]
}

#[tactic(auto, unfolding(crate::specs::Rows::trial_in))]
pub fn trial_in(row: &[u64]) -> TrialProgress
    requires { 2 ≤ length row.now }
    ensures { result ≡ trial_in row.now }
{
    TrialProgress {
        number: row[0],
        next_dim: row[1] as usize,
    }
}
