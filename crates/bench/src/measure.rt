// The figures: at N = 160 with 16 dimensions, at N = 20 with 2, of a long history, and of rounding, ladders and sweeps by themselves.
use crate::campaign::{open, trials, with_midpoint};
use crate::closings::best_closing;
use crate::ladders::{best_bounds, best_decoding};
use crate::rounded::best_rounding;
use crate::scan::scan;
use crate::show::{expect, hundredfold, ratio, time};
use crate::sweeps::{best_sweep, choice, whole};
use crate::work::{best, copies};
use distribution::DimensionInfo;
use state::State;
use std::rt::Env;
use std::time::Clock;
use std::{env, io};

// Hundredths of a nanosecond.
#[derive(Clone, Copy)]
struct Figures {
    copy: u64,
    sample: u64,
    closing: u64,
    midpoint: u64,
}

// Of a state with the trials 2 to n + 1 open.
fn figures_of(rt: &(impl Clock + Print), state: State, n: u64) -> io::Result<Figures> {
    let end = n.wrapping_add(2);
    let copy = best(rt, state, |s| copies(s, 500))?;
    let sample = best(rt, state, |s| trials(s, 2, end))?;
    let closing = best_closing(rt, state, end)?;
    let midpoint = best_closing(rt, with_midpoint(state), end)?;
    expect(rt, copy.n_trials == n as usize)?;
    expect(rt, sample.n_trials == n as usize)?;
    expect(rt, closing.n_trials == n as usize)?;
    expect(rt, midpoint.n_trials == n as usize)?;
    Ok(Figures {
        copy: hundredfold(copy.ns, 500),
        sample: hundredfold(sample.ns, n),
        closing: hundredfold(closing.ns, 1),
        midpoint: hundredfold(midpoint.ns, 1),
    })
}

// The lines of one size of state, such as 160-16.
fn lines(rt: &impl Print, size: &str, f: Figures) -> io::Result<()> {
    time(rt, "copy", size, f.copy)?;
    time(rt, "sample", size, f.sample)?;
    time(rt, "closing", size, f.closing)?;
    time(rt, "closing-midpoint", size, f.midpoint)?;
    ratio(rt, "sample/copy", size, f.sample, f.copy)?;
    ratio(rt, "closing/copy", size, f.closing, f.copy)
}

fn long_history(rt: &(impl Clock + Print), state: State) -> io::Result<()> {
    let t = scan(rt, state)?;
    expect(rt, t.n_trials == 160)?;
    // Nanoseconds an entry.
    ratio(rt, "scan-ns", "", hundredfold(t.ns, 100000), 100)
}

fn rounding_alone(rt: &(impl Clock + Print), seed: u64) -> io::Result<()> {
    let p = best_rounding(rt, seed)?;
    expect(rt, p.sum == rounding::round(p.sum))?;
    time(rt, "round", "", hundredfold(p.ns, 1000))
}

fn ladders_alone(rt: &(impl Clock + Print), seed: u64) -> io::Result<()> {
    let decoding = best_decoding(rt, seed)?;
    let bounds = best_bounds(rt, seed)?;
    expect(rt, decoding.sum >= 1000000.0)?;
    expect(rt, bounds.sum >= 7936000000.0)?;
    time(rt, "ladder-decoding", "", hundredfold(decoding.ns, 1000))?;
    time(rt, "ladder-bounds", "", hundredfold(bounds.ns, 1000))
}

// A sweep of some dimensions: all of it, and a number of its list. `count` combinations are expected, and the sum of their numbers.
fn swept(
    rt: &(impl Alloc + Clock + Print),
    size: &str,
    dims: &[DimensionInfo],
    count: usize,
    sum: i64,
) -> io::Result<()> {
    let s = best_sweep(rt, dims)?;
    expect(rt, s.count == count && s.sum == sum)?;
    time(rt, "sweep", size, hundredfold(s.ns, 1))?;
    time(
        rt,
        "sweep-number",
        size,
        hundredfold(s.ns, count.saturating_mul(dims.len()) as u64),
    )
}

// Of 16 dimensions half of the numbers are 1. Of three, each of 3 choices stands 20,000 times, each of 100 values of the second 600 times and each
// of 200 of the third 300 times. Of one it is 1 to 65,536. The seed is 2, which the compiler does not know.
fn sweeps_alone(rt: &(impl Alloc + Clock + Print), seed: u64) -> io::Result<()> {
    swept(rt, "-16", &[choice(seed); 16], 65536, 524288)?;
    let two = (seed % 3) as i64;
    let step = 10 * two;
    swept(
        rt,
        "-3",
        &[
            choice(3),
            whole(step, 2000, Some(step)),
            whole(1, 200, None),
        ],
        60000,
        66690000,
    )?;
    swept(rt, "-1", &[whole(two - 1, 65536, None)], 65536, 2147516416)
}

// The seed is how many arguments there are: 2, which the compiler does not know.
pub fn measure(rt: &(impl Alloc + Clock + Env + Print)) -> io::Result<()> {
    let seed = env::args(rt)?.len() as u64;
    let state = open(seed, 16, 162);
    lines(rt, "-160-16", figures_of(rt, state, 160)?)?;
    lines(rt, "-20-2", figures_of(rt, open(seed, 2, 22), 20)?)?;
    long_history(rt, state)?;
    rounding_alone(rt, seed)?;
    ladders_alone(rt, seed)?;
    sweeps_alone(rt, seed)
}
