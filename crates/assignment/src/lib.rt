// Assignment, on the sampler's own state (sampler/de.rs: `sample_active` after its closing, `assign_candidate`); discovery is
// in `discovery`.
#![tactic(auto)]

pub mod discovery;
pub mod places;

ghost use Rattle.std.specs.Prelude.{◌≡◌, ◌≤◌, ◌<◌, ◌^◌, length};
ghost use Rattle.rng_util.specs.Gen.{made};
ghost use Rattle.distribution.specs.Validate.{verdict_of};
ghost use Rattle.candidates.specs.Space.{FewChoices};
ghost use Rattle.kernel.specs.De.{decode_of};
ghost use Rattle.state.specs.View.{dims_of};
ghost use Rattle.assignment.specs.Raw.{decoded_by, setting_for, assigned_at, given, Ready, raw_active};

use candidates::Candidate;
use distribution::{Ci, DimIdx, DimensionInfo, Distribution, ParamValue};
use rng_util::Gen;
use state::{State, TrialProgress};

// What a candidate means for a dimension of this distribution: its entry at ci, or its choice at the dimension's place.
#[tactic(auto, unfolding(crate::specs::Raw::decoded_by))]
fn decode(d: Distribution, at: DimIdx, ci: Ci, c: &Candidate) -> ParamValue
    ensures { result ≡ decoded_by d at ci c.now }
{
    if d.is_continuous() {
        return common::from_internal(c.entry(ci), d);
    }
    ParamValue::Categorical(u64::from(c.choice(at)))
}

// The candidate's setting for dimension `at`, by the stored distribution.
#[tactic(auto, unfolding(crate::specs::Raw::decoded_by, kernel::specs::De::decode_of))]
pub fn decode_at(dims: &[DimensionInfo], at: DimIdx, c: &Candidate) -> ParamValue
    requires { (at.0 < length dims.now) × (length dims.now ≤ 16) }
    ensures { result ≡ decode_of dims.now at.0 c.now }
{
    let ci = candidates::continuous_place(dims, at);
    decode(dims[at.0].distribution, at, ci, c)
}

// The candidate's setting for dimension `at`; past the last, a random one of the lent distribution.
#[tactic(auto, unfolding(crate::specs::Raw::setting_for))]
pub fn setting_for(
    dims: &[DimensionInfo],
    lent: Distribution,
    at: DimIdx,
    c: &Candidate,
    rng: &mut Gen,
) -> ParamValue
    requires { (length dims.now ≤ 16) × (verdict_of lent ≡ Ok tt) × (rng.old.draws < 2 ^ 61) }
    ensures { made result rng.new ≡ setting_for dims.now lent at.0 c.now rng.old }
{
    if at.0 < dims.len() {
        return decode_at(dims, at, c);
    }
    common::sample_random(lent, rng)
}

// The trial's own candidate if its place has one; else it is an extra, and gets a random one.
#[tactic(auto, using(crate::proofs::Laws::spaces), unfolding(crate::specs::Raw::candidate_for))]
fn assign_candidate(state: &State, place: usize, rng: &mut Gen) -> Candidate
    requires { (state.now.n_dims ≤ 16) × FewChoices (dims_of state.now) × (place < 224) × (rng.old.draws < 2 ^ 60) }
    ensures { made result rng.new ≡ assigned_at state.now place rng.old }
{
    if place < state.candidate_count() {
        return state.candidates[place];
    }
    let space = candidates::search_space(state.dims());
    candidates::random_candidate(&space, rng)
}

// The call of a trial after discovery, once the generation has closed if it does: the setting, and the draws of the whole call.
// A new trial's place is unused: next_dim is 0 there.
#[tactic(auto, unfolding(crate::specs::Raw::raw_active))]
pub fn sample_active(
    state: &mut State,
    lent: Distribution,
    number: u64,
    mut rng: Gen,
) -> (ParamValue, u64)
    requires { Ready state.old lent number rng }
    ensures { given result state.new ≡ raw_active state.old lent number rng }
{
    let place = places::place_of(state.trials(), number);
    let candidate = assign_candidate(state, place, &mut rng);
    let at = state.trials[place].next_dim;
    let setting = setting_for(state.dims(), lent, DimIdx(at), &candidate, &mut rng);
    // One dimension on, and no further than past the last.
    let next_dim = at.saturating_add(1).min(state.n_dims);
    state.candidates[place] = candidate;
    state.trials[place] = TrialProgress { number, next_dim };
    state.n_trials = state.n_trials.max(place + 1);
    state.word = rng.word;
    (setting, rng.draws)
}
