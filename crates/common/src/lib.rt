// Between settings and internal doubles (sampler/common.rs).
#![tactic(auto)]

mod float;
mod int;
pub mod places;

ghost use Rattle.std.specs.Prelude.{◌≡◌, ◌^◌, ◌<◌};
ghost use Rattle.distribution.specs.Validate.{verdict_of};
ghost use Rattle.common.specs.Bounds.{bounds};
ghost use Rattle.common.specs.FromInternal.{from_internal};
ghost use Rattle.common.specs.ToInternal.{setting_fails, as_double, to_internal, internal_refusal, setting_refusal};
ghost use Rattle.common.specs.Random.{random_value, random_setting};
ghost use Rattle.rng_util.specs.Gen.{made};

use distribution::validate::int_bound_fails;
use distribution::{Distribution, ParamValue, Refusal};
use rng_util::Gen;

#[derive(Clone, Copy)]
pub struct Bounds {
    pub low: f64,
    pub high: f64,
}

impl Bounds {
    ghost use Rattle.common.specs.Bounds.{no_bounds};

    // No bounds: zeros, which nothing reads.
    pub fn none() -> Bounds
        ensures { result ≡ no_bounds }
    {
        Bounds {
            low: 0.0,
            high: 0.0,
        }
    }
}

// The bounds as doubles; a categorical distribution has none.
pub fn internal_bounds(d: Distribution) -> Bounds
    ensures { result ≡ bounds d }
{
    match d {
        Distribution::Float(f) => Bounds {
            low: f.low,
            high: f.high,
        },
        Distribution::Int(i) => int::bounds(i),
        Distribution::Categorical(_) => Bounds::none(),
    }
}

// The setting that an internal double stands for. The Rust does not reach a categorical distribution: choice 0 stands there.
#[tactic(auto, unfolding(crate::specs::FromInternal::from_internal))]
pub fn from_internal(value: f64, d: Distribution) -> ParamValue
    ensures { result ≡ from_internal value d }
{
    match d {
        Distribution::Float(f) => ParamValue::Float(float::from_float(value, f)),
        Distribution::Int(i) => ParamValue::Int(int::from_int(value, i)),
        Distribution::Categorical(_) => ParamValue::Categorical(0),
    }
}

// An Int setting over 2^53 in size.
#[tactic(auto, unfolding(crate::specs::ToInternal::setting_fails))]
fn setting_fails(value: ParamValue) -> bool
    ensures { result ≡ setting_fails value }
{
    matches!(value, ParamValue::Int(v) if int_bound_fails(v))
}

// A Float as it is, a whole number to double; 0 where the kinds differ.
#[tactic(auto, unfolding(crate::specs::ToInternal::as_double))]
fn as_double(value: ParamValue, d: Distribution) -> f64
    ensures { result ≡ as_double value d }
{
    match (value, d) {
        (ParamValue::Float(v), Distribution::Float(_)) => v,
        (ParamValue::Int(v), Distribution::Int(_)) => std::num::nearest_i64_to_f64(v),
        _ => 0.0,
    }
}

// The internal double of a setting.
#[tactic(auto, unfolding(crate::specs::ToInternal::to_internal, crate::specs::ToInternal::setting_refusal))]
pub fn to_internal(value: ParamValue, d: Distribution) -> Result<f64, Refusal>
    ensures { (result ≡ to_internal value d) × (internal_refusal result ≡ setting_refusal value d) }
{
    d.validate()?;
    if d.is_ladder() {
        return Err(Refusal::LogScale);
    }
    if setting_fails(value) {
        return Err(Refusal::Bounds);
    }
    Ok(as_double(value, d))
}

// The random setting that an output gives.
#[tactic(auto, using(crate::proofs::Valid::some_choice), unfolding(crate::specs::Random::random_value))]
fn random_value(output: u64, d: Distribution) -> ParamValue
    requires { verdict_of d ≡ Ok tt }
    ensures { result ≡ random_value d output }
{
    match d {
        Distribution::Float(f) => ParamValue::Float(float::random_float(output, f)),
        Distribution::Int(i) => ParamValue::Int(int::random_int(output, i)),
        Distribution::Categorical(c) => {
            ParamValue::Categorical(rng_util::usize_below(output, c.n_choices))
        }
    }
}

// One draw, whatever the distribution. A stepped Float is not clamped. That the distribution is valid is no type of its own: dimensions
// and states hold any distribution, and a narrower type would ask more of callers.
#[tactic(auto, unfolding(crate::specs::Random::random_setting))]
pub fn sample_random(d: Distribution, rng: &mut Gen) -> ParamValue
    requires d_value { verdict_of d ≡ Ok tt }
    requires draws_bound { rng.old.draws < 2 ^ 63 }
    ensures { made result rng.new ≡ random_setting d rng.old }
{
    random_value(rng.draw(), d)
}
