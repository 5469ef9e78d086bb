// Sweeps by themselves (document 02, W10): every combination of some dimensions, listed in lent memory.
use crate::clock::{now, since};
use distribution::{CategoricalDistribution, DimensionInfo, Distribution, IntDistribution};
use std::io;
use std::time::Clock;
use sweep::sweep;

pub fn choice(n_choices: u64) -> DimensionInfo {
    DimensionInfo {
        distribution: Distribution::Categorical(CategoricalDistribution { n_choices }),
    }
}

pub fn whole(low: i64, high: i64, step: Option<i64>) -> DimensionInfo {
    DimensionInfo {
        distribution: Distribution::Int(IntDistribution {
            low,
            high,
            log_scale: false,
            step,
        }),
    }
}

// The time of a sweep, how many combinations it listed, and the sum of the memory afterwards, which was 0 before.
#[derive(Clone, Copy)]
pub struct Swept {
    pub ns: u64,
    pub count: usize,
    pub sum: i64,
}

fn timed_sweep(rt: &impl Clock, dims: &[DimensionInfo], out: &mut [i64]) -> io::Result<Swept> {
    out.fill(0);
    let from = now(rt)?;
    let answer = sweep(dims, out);
    let ns = since(rt, from)?;
    Ok(Swept {
        ns,
        count: answer.unwrap_or(0),
        sum: out.iter().fold(0, |sum: i64, x| sum.wrapping_add(*x)),
    })
}

// The least time of fifty sweeps. The memory, 8 MB for the longest list that there can be, is on the heap.
pub fn best_sweep(rt: &(impl Alloc + Clock), dims: &[DimensionInfo]) -> io::Result<Swept> {
    let mut out = vec![in rt.alloc(); 0i64; 1048576]?;
    let mut best = timed_sweep(rt, dims, &mut out)?;
    for _ in 1..50 {
        let s = timed_sweep(rt, dims, &mut out)?;
        best = Swept {
            ns: best.ns.min(s.ns),
            count: s.count,
            sum: s.sum,
        };
    }
    Ok(best)
}
