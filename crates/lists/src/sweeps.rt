// The sweep call (document 02, W10).
ghost use Rattle.std.specs.Prelude.{◌≡◌, length, map};
ghost use Rattle.std.specs.List.{list_all};
ghost use Rattle.edge.specs.Flat.{distribution_of};
ghost use Rattle.edge.specs.Known.{named, known_distribution};
ghost use Rattle.sweep.specs.Gathered.{gathered};
ghost use Rattle.lists.specs.Sweeps.{unknown_count, count_in, sweep_answer, sweep_left};

use distribution::Distribution;
use edge::flat::{DeDistribution, Unnamed};
use sweep::SweepRefusal;
use sweep::gathered::Gathered;

// kind: 0 refused, by 4 to 7 of the first dimension that has one, by 16 or by 17; 1 listed, `count` combinations; 4 a number of a dimension
// names no case. Fields that a kind does not use are 0. Kind and refusal are numbers, since no enum can cross to C.
#[repr(C)]
#[derive(Clone, Copy)]
pub struct DeCount {
    pub kind: u64,
    pub refusal: u64,
    pub count: u64,
}

impl From<Unnamed> for DeCount {
    ghost from_gives = { λ _ count. count ≡ unknown_count };

    fn from(_: Unnamed) -> Self {
        DeCount {
            kind: 4,
            refusal: 0,
            count: 0,
        }
    }
}

impl From<Result<usize, SweepRefusal>> for DeCount {
    ghost from_gives = { λ answer count. count ≡ count_in answer };

    fn from(answer: Result<usize, SweepRefusal>) -> Self {
        match answer {
            Ok(n) => DeCount {
                kind: 1,
                refusal: 0,
                count: n as u64,
            },
            Err(why) => DeCount {
                kind: 0,
                refusal: why.number(),
                count: 0,
            },
        }
    }
}

// What the dimensions come to, each opened as it is read; a number that names no case is told before any check.
fn gather(dims: &[DeDistribution]) -> Result<Gathered, Unnamed>
    ensures { result ≡ named (list_all known_distribution dims.now) (gathered (map distribution_of dims.now)) }
{
    let mut so_far = Gathered::new();
    for d in dims {
        so_far.absorb(Distribution::try_from(*d)?);
    }
    Ok(so_far)
}

pub fn sweep_at(dims: &[DeDistribution], out: &mut [i64]) -> DeCount
    ensures { (result ≡ sweep_answer dims.now (length out.old)) × (out.new ≡ sweep_left dims.now out.old) }
{
    match gather(dims) {
        Ok(dimensions) => DeCount::from(dimensions.list(out)),
        Err(unnamed) => DeCount::from(unnamed),
    }
}
