// A Float dimension: doubles, in the Rust's order of operations.
ghost use Rattle.std.specs.Prelude.{◌≡◌, ◌^◌, ◌<◌};
ghost use Rattle.std.specs.Float.{binary64};
ghost use Rattle.std.specs.Float.Ieee.{sub, div};
ghost use Rattle.distribution.specs.Validate.{verdict_of};
ghost use Rattle.rounding.specs.Floor.{floor_of};
ghost use Rattle.common.specs.FromInternal.{from_float};
ghost use Rattle.common.specs.Random.{random_float};

use distribution::{Distribution, FloatDistribution};

#[tactic(auto, unfolding(crate::specs::FromInternal::from_float, crate::specs::FromInternal::on_step))]
pub fn from_float(value: f64, d: FloatDistribution) -> f64
    ensures { result ≡ from_float value d }
{
    let low = d.low;
    let on_step = d.step.map_or(value, |s| {
        let k = rounding::round((value - low) / s);
        low + k * s
    });
    rounding::clamp(on_step, low, d.high)
}

// low + k × step, k the drawn number of steps.
#[tactic(auto, unfolding(crate::specs::Random::random_float))]
fn random_step(output: u64, step: f64, d: FloatDistribution) -> f64
    requires { floor_of (div binary64 (sub binary64 d.high d.low) step) < 2 ^ 32 }
    ensures { result ≡ random_float (Some step) d.low d.high output }
{
    let n_steps = rounding::floor((d.high - d.low) / step);
    let k = rng_util::i64_between(output, 0, n_steps as i64);
    d.low + std::num::nearest_i64_to_f64(k) * step
}

#[tactic(auto, using(crate::proofs::Valid::float_few), unfolding(crate::specs::Random::random_float))]
pub fn random_float(output: u64, d: FloatDistribution) -> f64
    requires { verdict_of (Distribution.Float d) ≡ Ok tt }
    ensures { result ≡ random_float d.step d.low d.high output }
{
    match d.step {
        None => rng_util::f64_range(d.low, d.high, rng_util::unit(output)),
        Some(s) => random_step(output, s, d),
    }
}
