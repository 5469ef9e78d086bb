// Candidates, the search space that they are drawn from, and random candidates (sampler/de.rs: "Internal types",
// "Helpers", `generate_initial_population`).
#![tactic(auto)]

ghost use Rattle.std.specs.Prelude.{◌≡◌, ◌≤◌, ◌<◌, ◌^◌, length};
ghost use Rattle.rng_util.specs.Gen.{made};
ghost use Rattle.rng_util.specs.Many.{padded};
ghost use Rattle.common.specs.Bounds.{zero_f};
ghost use Rattle.candidates.specs.Candidate.{blank_candidate, entry_of, choice_of, continuous_place};
ghost use Rattle.candidates.specs.Space.{continuous_count, FewChoices, space_of};
ghost use Rattle.candidates.specs.Random.{random_entry, random_entries, random_choice, random_choices, random_candidate, random_candidates};

use common::Bounds;
use distribution::{Ci, DimIdx, DimensionInfo};
use rng_util::Gen;

// Entries by the place among the continuous dimensions, choices by the place among all; unused places are 0.
#[repr(C)]
#[derive(Clone, Copy)]
pub struct Candidate {
    pub x: [f64; 16],
    pub choices: [u16; 16],
}

impl Candidate {
    // Every place is unused.
    pub fn blank() -> Candidate
        ensures { result ≡ blank_candidate }
    {
        Candidate {
            x: [0.0; 16],
            choices: [0; 16],
        }
    }

    // The entry of a continuous dimension; 0 past the last place.
    pub fn entry(&self, at: Ci) -> f64
        ensures { result ≡ entry_of self.now at }
    {
        self.x.get(at.0).copied().unwrap_or(0.0)
    }

    // The choice of a dimension; 0 past the last place.
    pub fn choice(&self, at: DimIdx) -> u16
        ensures { result ≡ choice_of self.now at }
    {
        self.choices.get(at.0).copied().unwrap_or(0)
    }
}

// What the draws read of the dimensions, made once: the bounds of the n continuous ones in order, and the number of
// choices of each dimension, 0 for a continuous one. Arrays with counts: the library has no heap. No ghost field bounds n and n_dims:
// `space_of` is of every list.
#[derive(Clone, Copy)]
pub struct Space {
    pub bounds: [Bounds; 16],
    pub n: usize,
    pub counts: [u16; 16],
    pub n_dims: usize,
}

// How many of the dimensions are continuous.
#[tactic(auto, unfolding(crate::specs::Space::continuous_dims))]
pub fn continuous_count(dims: &[DimensionInfo]) -> usize
    ensures { result ≡ continuous_count dims.now }
{
    dims.iter()
        .filter(|d| d.distribution.is_continuous())
        .count()
}

// The place among the continuous dimensions: how many of them stand before.
pub fn continuous_place(dims: &[DimensionInfo], at: DimIdx) -> Ci
    requires { at.0 ≤ length dims.now }
    ensures { result ≡ continuous_place dims.now at }
{
    Ci(continuous_count(&dims[..at.0]))
}

// The search space of the discovered dimensions.
pub fn search_space(dims: &[DimensionInfo]) -> Space
    requires { (length dims.now ≤ 16) × FewChoices dims.now }
    ensures { result ≡ space_of dims.now }
{
    let mut bounds = [Bounds::none(); 16];
    let mut n = 0;
    let mut counts = [0; 16];
    for (i, d) in dims.iter().enumerate() {
        counts[i] = d.distribution.choices() as u16;
        if d.distribution.is_continuous() {
            bounds[n] = common::internal_bounds(d.distribution);
            n += 1;
        }
    }
    Space {
        bounds,
        n,
        counts,
        n_dims: dims.len(),
    }
}

// A random entry between its dimension's bounds.
#[tactic(auto, unfolding(crate::specs::Random::random_entry))]
fn sample_random_internal(bounds: Bounds, rng: &mut Gen) -> f64
    requires { rng.old.draws < 2 ^ 63 }
    ensures { made result rng.new ≡ random_entry bounds rng.old }
{
    let u = rng_util::unit(rng.draw());
    rng_util::f64_range(bounds.low, bounds.high, u)
}

// A random entry for each continuous dimension, in order.
fn random_entries(space: &Space, rng: &mut Gen) -> [f64; 16]
    requires { (space.now.n ≤ 16) × (rng.old.draws < 2 ^ 62) }
    ensures { made result rng.new ≡ padded 16 zero_f (random_entries space.now rng.old) }
{
    rng_util::many(0.0, space.n, rng, |j, rng| {
        sample_random_internal(space.bounds[j], rng)
    })
}

// One of k choices; 0, without a draw, where there are none.
#[tactic(auto, unfolding(crate::specs::Random::random_choice))]
fn random_choice(k: u16, rng: &mut Gen) -> u16
    requires { rng.old.draws < 2 ^ 63 }
    ensures { made result rng.new ≡ random_choice k rng.old }
{
    if k == 0 {
        return 0;
    }
    rng_util::usize_below(rng.draw(), u64::from(k)) as u16
}

// A choice for each dimension that has some, in order.
pub fn random_choices(space: &Space, rng: &mut Gen) -> [u16; 16]
    requires { (space.now.n_dims ≤ 16) × (rng.old.draws < 2 ^ 62) }
    ensures { made result rng.new ≡ padded 16 0 (random_choices space.now rng.old) }
{
    rng_util::many(0, space.n_dims, rng, |i, rng| {
        random_choice(space.counts[i], rng)
    })
}

// A random candidate: entries, then choices.
pub fn random_candidate(space: &Space, rng: &mut Gen) -> Candidate
    requires { (space.now.n ≤ 16) × (space.now.n_dims ≤ 16) × (rng.old.draws < 2 ^ 61) }
    ensures { made result rng.new ≡ random_candidate space.now rng.old }
{
    let x = random_entries(space, rng);
    let choices = random_choices(space, rng);
    Candidate { x, choices }
}

// Random candidates for the slots 0 to n - 1.
pub fn generate_initial_population(space: &Space, n: usize, rng: &mut Gen) -> [Candidate; 224]
    requires { (n ≤ 160) × (space.now.n ≤ 16) × (space.now.n_dims ≤ 16) × (rng.old.draws < 2 ^ 60) }
    ensures { made result rng.new ≡ padded 224 blank_candidate (random_candidates space.now n rng.old) }
{
    rng_util::many(Candidate::blank(), n, rng, |_, rng| {
        random_candidate(space, rng)
    })
}
