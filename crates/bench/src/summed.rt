// Small work by itself, in a loop over a fixed list of a thousand.
use crate::clock::{now, since};
use std::io;
use std::time::Clock;

// The time of a pass over the list, and the sum of what it gave: what is summed, the compiler cannot leave out.
#[derive(Clone, Copy)]
pub struct Summed {
    pub ns: u64,
    pub sum: f64,
}

fn timed_pass<F: Fn(f64) -> f64>(rt: &impl Clock, from: f64, pass: &F) -> io::Result<Summed>
    requires { F.IsAlwaysCallable pass.now }
{
    let start = now(rt)?;
    let sum = pass(from);
    let ns = since(rt, start)?;
    Ok(Summed { ns, sum })
}

// The least time of a thousand passes. Each goes on from the sum of the one before, so that the compiler cannot make one of them.
pub fn best_pass<F: Fn(f64) -> f64>(rt: &impl Clock, pass: F) -> io::Result<Summed>
    requires { F.IsAlwaysCallable pass }
{
    let mut best = Summed {
        ns: u64::MAX,
        sum: 0.0,
    };
    for _ in 0..1000 {
        let p = timed_pass(rt, best.sum, &pass)?;
        best = Summed {
            ns: best.ns.min(p.ns),
            sum: p.sum,
        };
    }
    Ok(best)
}
