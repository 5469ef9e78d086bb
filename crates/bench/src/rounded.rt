// Rounding by itself.
use crate::draws::drawn;
use crate::summed::{Summed, best_pass};
use std::io;
use std::time::Clock;

// A thousand doubles from 0 to 1000, drawn: such as decoding by a step rounds.
fn doubles(seed: u64) -> [f64; 1000] {
    drawn(
        seed,
        0.0,
        |output| rng_util::f64_range(0.0, 1000.0, rng_util::unit(output)),
    )
}

pub fn best_rounding(rt: &impl Clock, seed: u64) -> io::Result<Summed> {
    let xs = doubles(seed);
    best_pass(
        rt,
        |from| xs.iter().fold(from, |sum, x| sum + rounding::round(*x)),
    )
}
