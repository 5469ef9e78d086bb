// The dimensions as they come in, one after the other; then the checks in their order.
ghost use Rattle.std.specs.Prelude.{◌≡◌, [], length};
ghost use Rattle.sweep.specs.Gathered.{gathered, absorbed, Judged, answer_of, left_by};

use super::SweepRefusal;
use crate::axis::axes_of;
use crate::combinations::{count_within, put_all};
use distribution::{CategoricalDistribution, Distribution, Refusal};
use filled::Filled;

// What 4 to 7 say of the dimensions so far, the first that applies, and the first 17 of them: with 17 of them 16 applies, whatever the rest are.
#[derive(Drop)]
pub struct Gathered {
    verdict: Result<(), Refusal>,
    kept: Filled<Distribution, 17>,
}

impl Gathered {
    // Before the first dimension.
    #[tactic(auto, unfolding(crate::specs::Gathered::gathered, crate::specs::Sweep::first_verdict))]
    pub fn new() -> Self
        ensures { result ≡ gathered [] }
    {
        Gathered {
            verdict: Ok(()),
            kept: Filled::new(Distribution::Categorical(CategoricalDistribution { n_choices: 0 })),
        }
    }

    // One dimension more.
    #[tactic(auto, using(crate::proofs::Gathering::full), unfolding(crate::specs::Gathered::absorbed))]
    pub fn absorb(&mut self, d: Distribution)
        ensures { self.new ≡ absorbed self.old d }
    {
        self.verdict = self.verdict.and(d.validate());
        if self.kept.room() > 0 {
            self.kept.push(d);
        }
    }

    // The checks in their order, and the list.
    #[tactic(auto, using(crate::proofs::Counted::listing))]
    pub fn list(&self, out: &mut [i64]) -> Result<usize, SweepRefusal>
        requires { Judged self.now }
        ensures { (result ≡ answer_of self.now (length out.old)) × (out.new ≡ left_by self.now out.old) }
    {
        self.verdict?;
        let axes = axes_of(self.kept.as_slice())?;
        let count = count_within(axes.as_slice(), out.len())?;
        put_all(out, axes.as_slice(), count);
        Ok(count)
    }
}
