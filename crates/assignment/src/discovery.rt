// Discovery and its end (sampler/de.rs: `sample_discovery`, `finalize_discovery`).
ghost use Rattle.std.specs.Prelude.{◌≡◌, ◌<◌};
ghost use Rattle.rng_util.specs.Gen.{made};
ghost use Rattle.distribution.specs.Validate.{verdict_of};
ghost use Rattle.ledger.specs.Sample.{discovers};
ghost use Rattle.assignment.specs.Raw.{start_of, given, raw_discovery, Complete, raw_begin};

use distribution::{DimensionInfo, Distribution, ParamValue};
use rng_util::Gen;
use state::State;

// Before discovery ends: the call names the first trial, or is that trial's.
pub fn discovers(first: Option<u64>, number: u64) -> bool
    ensures { result ≡ discovers first number }
{
    first.is_none_or(|t| t == number)
}

// A call of the first trial: one dimension more, and a random setting, with the draws that it took.
#[tactic(auto, unfolding(crate::specs::Raw::raw_discovery))]
pub fn sample_discovery(state: &mut State, d: Distribution, number: u64) -> (ParamValue, u64)
    requires { (state.old.n_dims < 16) × (verdict_of d ≡ Ok tt) }
    ensures { given result state.new ≡ raw_discovery state.old d number (start_of state.old) }
{
    let mut rng = Gen::new(state.word);
    let setting = common::sample_random(d, &mut rng);
    let at = state.n_dims;
    state.first = Some(number);
    state.dims[at] = DimensionInfo { distribution: d };
    state.n_dims = at + 1;
    state.word = rng.word;
    (setting, rng.draws)
}

// A call with another trial number ends discovery: N is fixed, and N random candidates are made. What is handed on is the
// generator.
#[inline(never)]
#[tactic(auto, unfolding(crate::specs::Raw::raw_begin))]
pub fn finalize_discovery(state: &mut State) -> Gen
    requires { Complete state.old }
    ensures { made state.new result ≡ raw_begin state.old (start_of state.old) }
{
    let mut rng = Gen::new(state.word);
    let space = candidates::search_space(state.dims());
    let n = selection::population_size(state.setup.population_size, space.n);
    state.discovered = true;
    state.n = n;
    state.candidates = candidates::generate_initial_population(&space, n, &mut rng);
    rng
}
