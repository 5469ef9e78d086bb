// Ladders by themselves (document 02, W9): a setting decoded from an entry, and the inner bounds.
use crate::draws::drawn;
use crate::summed::{Summed, best_pass};
use distribution::{Distribution, IntDistribution, ParamValue};
use std::io;
use std::time::Clock;

// From low to 2^31.
fn ladder(low: i64) -> Distribution {
    Distribution::Int(IntDistribution {
        low,
        high: 2147483648,
        log_scale: true,
        step: None,
    })
}

// A number from 1 to 2^31, of as many binary digits as are drawn.
fn low(output: u64) -> i64 {
    1 + ((output >> 33) >> (output % 31)) as i64
}

fn lows(seed: u64) -> [i64; 1000] {
    drawn(seed, 1, low)
}

fn entries(seed: u64) -> [f64; 1000] {
    drawn(
        seed,
        0.0,
        |output| rng_util::f64_range(0.0, 7936.0, rng_util::unit(output)),
    )
}

// The setting of an entry, as a double.
fn decoded(entry: f64, low: i64) -> f64 {
    match common::from_internal(entry, ladder(low)) {
        ParamValue::Int(x) => std::num::nearest_i64_to_f64(x),
        _ => 0.0,
    }
}

// Both inner bounds, summed.
fn bounded(low: i64) -> f64 {
    let bounds = common::internal_bounds(ladder(low));
    bounds.low + bounds.high
}

// Each entry decoded.
pub fn best_decoding(rt: &impl Clock, seed: u64) -> io::Result<Summed> {
    let xs = entries(seed);
    let lows = lows(seed.wrapping_add(1));
    best_pass(rt, |from| {
        xs.iter()
            .zip(lows.iter())
            .fold(from, |sum, (x, low)| sum + decoded(*x, *low))
    })
}

// The inner bounds of each ladder.
pub fn best_bounds(rt: &impl Clock, seed: u64) -> io::Result<Summed> {
    let lows = lows(seed);
    best_pass(
        rt,
        |from| lows.iter().fold(from, |sum, low| sum + bounded(*low)),
    )
}
