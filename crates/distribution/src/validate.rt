// Refusals 4 to 7: which distributions the sampler takes (`validate` of parameter.rs).
ghost use Rattle.std.specs.Prelude.{◌≡◌};
ghost use Rattle.distribution.specs.Validate.{is_finite, float_bound_fails, float_bounds_fail, int_bound_fails, int_bounds_fail, float_step_fails, int_step_fails, log_fails, refused_if, verdict_of};

use super::{CategoricalDistribution, Distribution, IntDistribution, Refusal};

// The largest size of a Float bound.
const FLOAT_LIMIT: f64 = 1e300;

// The largest size of an Int bound, and the largest Int step: 2^53.
const INT_LIMIT: i64 = 1 << 53;

// The largest upper bound of an Int distribution with the log flag: 2^31.
const LADDER_LIMIT: i64 = 1 << 31;

// The most steps between the bounds of a Float distribution.
const QUOTIENT_LIMIT: f64 = 4294967295.0;

const CHOICES_LIMIT: u64 = 65535;

// Neither NaN nor an infinity.
#[tactic(auto, using(crate::proofs::Flags::finite_is))]
pub fn is_finite(x: f64) -> bool
    ensures { result ≡ is_finite x }
{
    x.is_finite()
}

// Refusal 4 of one Float bound: not finite, or over 1e300 in size.
#[tactic(auto, using(crate::proofs::Flags::limit_held), unfolding(crate::specs::Validate::float_bound_fails))]
fn float_bound_fails(x: f64) -> bool
    ensures { result ≡ float_bound_fails x }
{
    !is_finite(x) || x > FLOAT_LIMIT || x < -FLOAT_LIMIT
}

// Refusal 4 of a Float distribution.
#[tactic(auto, unfolding(crate::specs::Validate::float_bounds_fail))]
fn float_bounds_fail(low: f64, high: f64) -> bool
    ensures { result ≡ float_bounds_fail low high }
{
    float_bound_fails(low) || float_bound_fails(high) || low > high
}

// Refusal 6 of a Float distribution: no finite step above 0, or too many of them.
#[tactic(auto, unfolding(crate::specs::Validate::float_step_fails, crate::specs::Validate::quotient))]
fn float_step_fails(low: f64, high: f64, step: Option<f64>) -> bool
    ensures { result ≡ float_step_fails low high step }
{
    step.is_some_and(|s| !is_finite(s) || !(s > 0.0) || (high - low) / s > QUOTIENT_LIMIT)
}

// Refusal 4 of one Int bound: over 2^53 in size.
#[tactic(auto, unfolding(crate::specs::Validate::int_bound_fails))]
pub fn int_bound_fails(x: i64) -> bool
    ensures { result ≡ int_bound_fails x }
{
    !(-INT_LIMIT..=INT_LIMIT).contains(&x)
}

// Refusal 4 of an Int distribution.
#[tactic(auto, unfolding(crate::specs::Validate::int_bounds_fail))]
fn int_bounds_fail(low: i64, high: i64) -> bool
    ensures { result ≡ int_bounds_fail low high }
{
    int_bound_fails(low) || int_bound_fails(high) || low > high
}

// Refusal 5 of an Int distribution: the log flag where there is no ladder (document 02, W9).
#[tactic(auto, unfolding(crate::specs::Validate::no_ladder))]
fn int_log_fails(d: IntDistribution) -> bool
    ensures { result ≡ log_fails (Distribution.Int d) }
{
    d.log_scale && (d.step.is_some() || d.low < 1 || d.high > LADDER_LIMIT)
}

// Refusal 6 of an Int distribution: a step outside 1 to 2^53.
#[tactic(auto, unfolding(crate::specs::Validate::int_step_fails))]
fn int_step_fails(step: Option<i64>) -> bool
    ensures { result ≡ int_step_fails step }
{
    step.is_some_and(|s| !(1..=INT_LIMIT).contains(&s))
}

// The first of refusals 4 to 6 whose test is met.
fn verdict_by(bounds_fail: bool, log_fails: bool, step_fails: bool) -> Result<(), Refusal>
    ensures { result ≡ refused_if bounds_fail Refusal.Bounds (refused_if log_fails Refusal.LogScale (refused_if step_fails Refusal.Step (Ok tt))) }
{
    if bounds_fail {
        Err(Refusal::Bounds)
    } else if log_fails {
        Err(Refusal::LogScale)
    } else if step_fails {
        Err(Refusal::Step)
    } else {
        Ok(())
    }
}

// Refusal 7: no choices, or too many.
#[tactic(auto, unfolding(crate::specs::Validate::verdict_of))]
fn validate_categorical(d: CategoricalDistribution) -> Result<(), Refusal>
    ensures { result ≡ verdict_of (Distribution.Categorical d) }
{
    if (1..=CHOICES_LIMIT).contains(&d.n_choices) {
        Ok(())
    } else {
        Err(Refusal::Choices)
    }
}

impl Distribution {
    // The first refusal of 4 to 7 that applies.
    #[tactic(auto, unfolding(crate::specs::Validate::verdict_of))]
    pub fn validate(self) -> Result<(), Refusal>
        ensures { result ≡ verdict_of self }
    {
        match self {
            Distribution::Float(f) => verdict_by(
                float_bounds_fail(f.low, f.high),
                f.log_scale,
                float_step_fails(f.low, f.high, f.step),
            ),
            Distribution::Int(i) => verdict_by(
                int_bounds_fail(i.low, i.high),
                int_log_fails(i),
                int_step_fails(i.step),
            ),
            Distribution::Categorical(c) => validate_categorical(c),
        }
    }
}
