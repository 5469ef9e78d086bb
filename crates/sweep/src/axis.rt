// A dimension as an axis: its values or choices in order.
ghost use Rattle.std.specs.Prelude.{◌≡◌, ◌<◌, Ok, IfOk, All};
ghost use Rattle.distribution.specs.Validate.{verdict_of};
ghost use Rattle.sweep.specs.Axes.{int_axis, choice_axis, axis_of, axis_value, Fine, axes_of};
ghost use Rattle.sweep.specs.Gathered.{AllValid};

use super::SweepRefusal;
use distribution::{CategoricalDistribution, Distribution, IntDistribution};
use filled::Filled;

// The first value, how far apart they are, and how many.
#[derive(Clone, Copy)]
pub struct Axis {
    pub first: i64,
    pub step: u64,
    pub size: u64,
}

// "Int values from low by the step, or by 1 without one, and never pass high."
#[tactic(auto, using(crate::proofs::Axes::int_axes))]
fn int_axis(d: IntDistribution) -> Axis
    requires { verdict_of (Distribution.Int d) ≡ Ok tt }
    ensures { result ≡ int_axis d }
{
    let step = d.step.unwrap_or(1).unsigned_abs();
    Axis {
        first: d.low,
        step,
        size: d.high.abs_diff(d.low) / step + 1,
    }
}

// "Choices rise from 0."
fn choice_axis(d: CategoricalDistribution) -> Axis
    ensures { result ≡ choice_axis d }
{
    Axis {
        first: 0,
        step: 1,
        size: d.n_choices,
    }
}

impl Axis {
    // A Float or ladder dimension has none.
    #[tactic(auto, unfolding(crate::specs::Axes::axis_of))]
    pub fn of(d: Distribution) -> Option<Self>
        requires { verdict_of d ≡ Ok tt }
        ensures { result ≡ axis_of d }
    {
        match d {
            Distribution::Float(_) => None,
            Distribution::Int(i) if i.log_scale => None,
            Distribution::Int(i) => Some(int_axis(i)),
            Distribution::Categorical(c) => Some(choice_axis(c)),
        }
    }

    // Value k.
    pub fn value(self, k: u64) -> i64
        requires { Fine self × (k < self.size) }
        ensures { result ≡ axis_value self k }
    {
        self.first + (k * self.step) as i64
    }
}

// "16, no dimension, more than 16, or a Float or ladder dimension": else an axis for each.
#[tactic(auto, using(crate::proofs::EachAxis::axial), unfolding(crate::specs::Axes::axes_of, crate::specs::Sweep::is_unsweepable))]
pub fn axes_of(dims: &[Distribution]) -> Result<Filled<Axis, 16>, SweepRefusal>
    requires { AllValid dims.now }
    ensures fine { IfOk result (λ axes. All Fine axes) }
    ensures axes { result ≡ axes_of dims.now }
{
    if dims.is_empty() || dims.len() > 16 {
        return Err(SweepRefusal::Unsweepable);
    }
    let mut axes = Filled::new(Axis {
        first: 0,
        step: 0,
        size: 0,
    });
    for d in dims {
        let Some(axis) = Axis::of(*d) else {
            return Err(SweepRefusal::Unsweepable);
        };
        axes.push(axis);
    }
    Ok(axes)
}
