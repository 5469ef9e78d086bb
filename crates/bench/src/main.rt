// Times the sampler: `bench run` prints ratios and times. Without that word it measures nothing: no test depends on a time.
#![tactic(auto)]

mod campaign;
mod clock;
mod closings;
mod draws;
mod ladders;
mod measure;
mod rounded;
mod scan;
mod show;
mod summed;
mod sweeps;
mod work;

use std::io;
use std::rt::Env;

// Whether the first argument is `run`. It is read by itself and as bytes: `env::args` fails on any argument that is no text.
fn asked(rt: &impl Env) -> bool {
    let mut word = [0u8; 4];
    let length = rt.arg(1, &mut word);
    length.is_ok_and(|n| n == 3) && word.starts_with(b"run")
}

fn main(rt: HostRuntime) -> io::Result<()> {
    if asked(&rt) {
        measure::measure(&rt)
    } else {
        println!(rt;
            "bench run: print ratios to a plain copy of the state, and times in nanoseconds"
        )
    }
}
