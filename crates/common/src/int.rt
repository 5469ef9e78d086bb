// An Int dimension: exact whole numbers.
ghost use Rattle.std.specs.Prelude.{◌≡◌, ◌^◌, ◌≤◌, true, pos, neg_ℤ, ◌-◌, ◌+ℤ◌, ◌*ℤ◌, ◌≤ℤ◌, ◌<ℤ◌, unsigned_abs};
ghost use Rattle.distribution.specs.Validate.{verdict_of};
ghost use Rattle.rounding.specs.Round.{whole_z};
ghost use Rattle.common.specs.Bounds.{int_bounds};
ghost use Rattle.common.specs.FromInternal.{clamp_z, from_ladder, from_int};
ghost use Rattle.common.specs.Random.{random_on_step, random_ladder, random_int};

use super::Bounds;
use distribution::{Distribution, IntDistribution};

// The bounds as doubles; with the log flag the ladder's inner bounds.
pub fn bounds(d: IntDistribution) -> Bounds
    ensures { result ≡ int_bounds d }
{
    if d.log_scale {
        return Bounds {
            low: std::num::nearest_u64_to_f64(ladder::inner_low(d.low)),
            high: std::num::nearest_u64_to_f64(ladder::inner_high(d.high)),
        };
    }
    Bounds {
        low: std::num::nearest_i64_to_f64(d.low),
        high: std::num::nearest_i64_to_f64(d.high),
    }
}

// The whole number nearest to q, within ±(2^64 - 1): by rounding's table, and not by std's `round`, which has powers of two of its own.
#[tactic(auto, using(crate::proofs::Steps::wholes))]
fn whole(q: f64) -> i128
    ensures { result ≡ clamp_z (whole_z q) (neg_ℤ (pos (2 ^ 64 - 1))) (pos (2 ^ 64 - 1)) }
{
    let size = i128::from(rounding::whole_size(q));
    if q > 0.0 { size } else { -size }
}

// low below low, high above high, else the number itself. It is not std's `clamp`, which asks that low is at most high.
#[tactic(auto, unfolding(crate::specs::FromInternal::clamp_z))]
fn clamp(x: i128, d: IntDistribution) -> i64
    ensures { result ≡ clamp_z x d.low d.high }
{
    if x < i128::from(d.low) {
        d.low
    } else if x > i128::from(d.high) {
        d.high
    } else {
        x as i64
    }
}

// from + k × step, k the whole number nearest to q, clamped. In 128 bits no sum leaves the range, and where k is past 64 bits it is past
// low or high.
#[tactic(auto, using(crate::proofs::Steps::sums))]
fn stepped(from: i64, q: f64, step: i64, d: IntDistribution) -> i64
    ensures { result ≡ clamp_z (from +ℤ whole_z q *ℤ step) d.low d.high }
{
    clamp(i128::from(from) + whole(q) * i128::from(step), d)
}

// With the log flag (document 02, W9): R at the entry's position, clamped.
#[tactic(auto, using(ladder::proofs::Positions::positions), unfolding(crate::specs::FromInternal::from_ladder))]
fn from_ladder(value: f64, d: IntDistribution) -> i64
    ensures { result ≡ from_ladder value d }
{
    let p = ladder::position(value, ladder::inner_low(d.low), ladder::inner_high(d.high));
    clamp(i128::from(ladder::rung(p)), d)
}

#[tactic(auto, using(crate::proofs::Steps::cuts), unfolding(crate::specs::FromInternal::from_int, crate::specs::FromInternal::on_step_z))]
pub fn from_int(value: f64, d: IntDistribution) -> i64
    ensures { result ≡ from_int value d }
{
    if d.log_scale {
        return from_ladder(value, d);
    }
    match d.step {
        None => clamp(whole(value), d),
        Some(s) => {
            let low = std::num::nearest_i64_to_f64(d.low);
            let q = (value - low) / std::num::nearest_i64_to_f64(s);
            stepped(d.low, q, s, d)
        }
    }
}

// low + k × step, k the drawn number of steps.
fn random_step(output: u64, step: i64, d: IntDistribution) -> i64
    requires low_le_high { (d.low ≤ℤ d.high) × (unsigned_abs d.low ≤ 2 ^ 53) × (unsigned_abs d.high ≤ 2 ^ 53) }
    requires pos_bound { pos 0 <ℤ step }
    ensures { result ≡ random_on_step (Some step) d.low d.high output }
{
    let n_steps = (d.high - d.low) / step;
    let k = rng_util::i64_between(output, 0, n_steps);
    d.low + k * step
}

// With the log flag: R at a drawn position, which decodes as itself, so that the inner bounds are not searched again.
fn random_ladder(output: u64, d: IntDistribution) -> i64
    requires valid { verdict_of (Distribution.Int d) ≡ Ok tt }
    requires log { d.log_scale ≡ true }
    ensures { result ≡ random_ladder d output }
{
    let from = ladder::inner_low(d.low);
    let to = ladder::inner_high(d.high);
    let p = rng_util::i64_between(output, from as i64, to as i64);
    clamp(i128::from(ladder::rung(p as u64)), d)
}

#[tactic(auto, using(crate::proofs::Valid::ints_valid), unfolding(crate::specs::Random::random_int, crate::specs::Random::random_on_step))]
pub fn random_int(output: u64, d: IntDistribution) -> i64
    requires { verdict_of (Distribution.Int d) ≡ Ok tt }
    ensures { result ≡ random_int d output }
{
    if d.log_scale {
        return random_ladder(output, d);
    }
    match d.step {
        None => rng_util::i64_between(output, d.low, d.high),
        Some(s) => random_step(output, s, d),
    }
}
