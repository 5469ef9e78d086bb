// Differential evolution: the trial vectors of a later generation (sampler/de.rs, "DE algorithm").
#![tactic(auto)]

pub mod mutant;
pub mod select;

ghost use Rattle.std.specs.Prelude.{◌≡◌, ◌<◌, ◌≤◌, ◌^◌, length};
ghost use Rattle.rng_util.specs.Gen.{made};
ghost use Rattle.rng_util.specs.Many.{padded};
ghost use Rattle.common.specs.Bounds.{zero_f};
ghost use Rattle.candidates.specs.Candidate.{blank_candidate};
ghost use Rattle.evolution.specs.Mutant.{in_row, entries};
ghost use Rattle.evolution.specs.Cross.{clamped, halfway, drawn_in, judged_entry, cross_entry, crossed};
ghost use Rattle.evolution.specs.Trial.{trial_of, trial_vectors, next_candidates};

use crate::mutant::create_mutant_with_rng;
use candidates::{Candidate, Space};
use common::Bounds;
use rng_util::Gen;

// In the order of their numbers 0 to 2.
#[derive(Clone, Copy)]
pub enum DEStrategy {
    Rand1,
    Best1,
    CurrentToBest1,
}

impl DEStrategy {
    ghost use Rattle.evolution.specs.Strategy.{strategy_number, strategy_from};
    ghost use Rattle.evolution.specs.Select.{index_count};

    // The number that C and a saved file know a strategy by: the cases stand in their order.
    pub fn number(self) -> u64
        ensures { result ≡ strategy_number self }
    {
        self as u64
    }

    // The strategy that a number stands for; any other number stands for none.
    pub fn from_number(number: u64) -> Option<DEStrategy>
        ensures { result ≡ strategy_from number }
    {
        match number {
            0 => Some(DEStrategy::Rand1),
            1 => Some(DEStrategy::Best1),
            2 => Some(DEStrategy::CurrentToBest1),
            _ => None,
        }
    }

    // How many indices are drawn for a mutant: three for Rand1, two otherwise.
    pub fn index_count(self) -> usize
        ensures { result ≡ index_count self }
    {
        match self {
            DEStrategy::Rand1 => 3,
            DEStrategy::Best1 | DEStrategy::CurrentToBest1 => 2,
        }
    }
}

// What becomes of a mutant's entry beyond a bound: it is clamped, as in the Rust, or first drawn in, halfway from the parent's entry
// to that bound (document 02, W7).
#[derive(Clone, Copy)]
pub enum BoundsRule {
    Clamp,
    Midpoint,
}

impl BoundsRule {
    ghost use Rattle.evolution.specs.BoundsRule.{rule_number, rule_from};

    // The number that C knows a rule by.
    pub fn number(self) -> u64
        ensures { result ≡ rule_number self }
    {
        match self {
            BoundsRule::Clamp => 0,
            BoundsRule::Midpoint => 1,
        }
    }

    // The rule that a number stands for; any other number stands for none.
    pub fn from_number(number: u64) -> Option<BoundsRule>
        ensures { result ≡ rule_from number }
    {
        match number {
            0 => Some(BoundsRule::Clamp),
            1 => Some(BoundsRule::Midpoint),
            _ => None,
        }
    }
}

// The seed is the generator's first word.
#[derive(Clone, Copy)]
pub struct Setup {
    pub mutation_factor: f64,
    pub crossover_rate: f64,
    pub strategy: DEStrategy,
    pub population_size: Option<u64>,
    pub seed: u64,
    pub bounds_rule: BoundsRule,
}

// What a slot holds: a parent, and the result that it was counted with.
#[repr(C)]
#[derive(Clone, Copy)]
pub struct Member {
    pub candidate: Candidate,
    pub value: f64,
}

// The slots that a mutant is made of. `r3` is no Option: each entry of a mutant reads three slots, and two of the three
// strategies pass over the third, so a None would have to be taken for some slot all the same.
#[derive(Clone, Copy)]
pub struct Indices {
    pub r1: usize,
    pub r2: usize,
    pub r3: usize,
}

// An entry of a trial vector is clamped to its dimension's bounds.
pub fn clamp_to_bounds(value: f64, bounds: Bounds) -> f64
    ensures { result ≡ clamped bounds value }
{
    rounding::clamp(value, bounds.low, bounds.high)
}

// Half the sum of the parent's entry and a bound: the sum is rounded, then its half.
fn halfway(x: f64, bound: f64) -> f64
    ensures { result ≡ halfway x bound }
{
    (x + bound) / 2.0
}

// The mutant's entry, drawn in where it is beyond a bound and the rule is midpoint; x is the parent's.
#[tactic(auto, unfolding(crate::specs::Cross::drawn_in))]
fn draw_in(rule: BoundsRule, value: f64, x: f64, bounds: Bounds) -> f64
    ensures { result ≡ drawn_in rule bounds x value }
{
    match rule {
        BoundsRule::Clamp => value,
        BoundsRule::Midpoint => {
            if value < bounds.low {
                halfway(x, bounds.low)
            } else if value > bounds.high {
                halfway(x, bounds.high)
            } else {
                value
            }
        }
    }
}

// The mutant's entry as a trial vector takes it: drawn in, then clamped.
fn judge_entry(rule: BoundsRule, value: f64, x: f64, bounds: Bounds) -> f64
    ensures { result ≡ judged_entry rule bounds x value }
{
    clamp_to_bounds(draw_in(rule, value, x, bounds), bounds)
}

// Entry j of a trial vector: the mutant's at j*, without a draw, or where a unit is below CR; else the parent's, which is clamped alone.
#[tactic(auto, unfolding(crate::specs::Cross::cross_entry))]
fn cross_entry(
    setup: &Setup,
    j: usize,
    j_rand: usize,
    mutant: f64,
    x: f64,
    bounds: Bounds,
    rng: &mut Gen,
) -> f64
    requires { rng.old.draws < 2 ^ 63 }
    ensures { made result rng.new ≡ cross_entry setup.now.bounds_rule setup.now.crossover_rate j_rand mutant x bounds j rng.old }
{
    if j == j_rand || rng_util::unit(rng.draw()) < setup.crossover_rate {
        judge_entry(setup.bounds_rule, mutant, x, bounds)
    } else {
        clamp_to_bounds(x, bounds)
    }
}

// Binomial crossover of a parent with its mutant.
fn crossover(
    setup: &Setup,
    j_rand: usize,
    mutant: &[f64; 16],
    parent: &[f64; 16],
    space: &Space,
    rng: &mut Gen,
) -> [f64; 16]
    requires { (space.now.n ≤ 16) × (rng.old.draws < 2 ^ 62) }
    ensures { made result rng.new
        ≡ padded 16 zero_f (crossed setup.now.bounds_rule setup.now.crossover_rate j_rand (in_row mutant.now) (in_row parent.now) space.now rng.old) }
{
    rng_util::many(0.0, space.n, rng, |j, rng| {
        cross_entry(setup, j, j_rand, mutant[j], parent[j], space.bounds[j], rng)
    })
}

// The trial vector of slot i: mutation, crossover, then choices. Set-up, parents, best slot, space and generator are no struct here and
// in the two functions below: they are lent for one call, by the state, by its dimensions and by the call.
fn trial_vector(
    setup: &Setup,
    parents: &[Member],
    best: usize,
    i: usize,
    space: &Space,
    rng: &mut Gen,
) -> Candidate
    requires slots { (4 ≤ length parents.now) × (best < length parents.now) × (i < length parents.now) }
    requires dims { (0 < space.now.n) × (space.now.n ≤ 16) × (space.now.n_dims ≤ 16) }
    requires draws { rng.old.draws < 2 ^ 60 }
    ensures { made result rng.new ≡ trial_of setup.now (entries parents.now) (length parents.now) best space.now i rng.old }
{
    let mutant = create_mutant_with_rng(setup, parents, best, i, space.n, rng);
    let j_rand = rng_util::usize_below(rng.draw(), space.n as u64) as usize;
    let parent = &parents[i].candidate.x;
    let x = crossover(setup, j_rand, &mutant, parent, space, rng);
    let choices = candidates::random_choices(space, rng);
    Candidate { x, choices }
}

// Trial vectors for the slots, in order.
pub fn generate_trial_vectors(
    setup: &Setup,
    parents: &[Member],
    best: usize,
    space: &Space,
    rng: &mut Gen,
) -> [Candidate; 224]
    requires slots { (4 ≤ length parents.now) × (length parents.now ≤ 160) × (best < length parents.now) }
    requires dims { (0 < space.now.n) × (space.now.n ≤ 16) × (space.now.n_dims ≤ 16) }
    requires draws { rng.old.draws < 2 ^ 59 }
    ensures { made result rng.new ≡ padded 224 blank_candidate (trial_vectors setup.now parents.now best space.now rng.old) }
{
    rng_util::many(Candidate::blank(), parents.len(), rng, |i, rng| {
        trial_vector(setup, parents, best, i, space, rng)
    })
}

// The candidates of a later generation: trial vectors if there is a continuous dimension, else random candidates.
#[tactic(auto, unfolding(crate::specs::Trial::next_candidates))]
pub fn next_candidates(
    setup: &Setup,
    parents: &[Member],
    best: usize,
    space: &Space,
    rng: &mut Gen,
) -> [Candidate; 224]
    requires slots { (4 ≤ length parents.now) × (length parents.now ≤ 160) × (best < length parents.now) }
    requires dims { (space.now.n ≤ 16) × (space.now.n_dims ≤ 16) }
    requires draws { rng.old.draws < 2 ^ 59 }
    ensures { made result rng.new ≡ padded 224 blank_candidate (next_candidates setup.now parents.now best space.now rng.old) }
{
    if space.n == 0 {
        return candidates::generate_initial_population(space, parents.len(), rng);
    }
    generate_trial_vectors(setup, parents, best, space, rng)
}
