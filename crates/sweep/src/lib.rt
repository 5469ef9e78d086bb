// Full sweep of a small space (document 02, W10): every combination of the values and choices of some dimensions, in lent memory.
#![tactic(auto)]

ghost use Rattle.std.specs.Prelude.{◌≡◌, length, map};
ghost use Rattle.sweep.specs.Sweep.{distribution_inside, sweep_refusal_number, sweep_of, swept_in};
ghost use Rattle.sweep.specs.Gathered.{gathered};

mod axis;
mod combinations;
pub mod gathered;

use distribution::{DimensionInfo, Refusal};
use gathered::Gathered;

// 4 to 7: a dimension's own refusal. 16: no dimension, more than 16, or one that is a Float or a ladder. 17: more combinations than 65,536 or
// than the lent memory holds.
#[derive(Clone, Copy)]
pub enum SweepRefusal {
    Dimension(Refusal),
    Unsweepable,
    TooMany,
}

impl SweepRefusal {
    // The number that callers know a sweep's refusal by: those of documents 01 and 02, case by case.
    pub fn number(self) -> u64
        ensures { result ≡ sweep_refusal_number self }
    {
        match self {
            SweepRefusal::Dimension(why) => why.number(),
            SweepRefusal::Unsweepable => 16,
            SweepRefusal::TooMany => 17,
        }
    }
}

impl From<Refusal> for SweepRefusal {
    ghost use Rattle.sweep.specs.declared.SweepRefusal.{SweepRefusal};

    ghost from_gives = { λ why refusal. refusal ≡ SweepRefusal.Dimension why };

    fn from(why: Refusal) -> Self {
        SweepRefusal::Dimension(why)
    }
}

// What the dimensions come to, one after the other.
fn gather(dims: &[DimensionInfo]) -> Gathered
    ensures { result ≡ gathered (map distribution_inside dims.now) }
{
    let mut so_far = Gathered::new();
    for d in dims {
        so_far.absorb(d.distribution);
    }
    so_far
}

// All combinations, one number a dimension, from the first place of `out` on: how many there are, or why none is listed.
pub fn sweep(dims: &[DimensionInfo], out: &mut [i64]) -> Result<usize, SweepRefusal>
    ensures { (result ≡ sweep_of (map distribution_inside dims.now) (length out.old)) × (out.new ≡ swept_in (map distribution_inside dims.now) out.old) }
{
    gather(dims).list(out)
}
