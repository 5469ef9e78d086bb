// Values that are drawn, for the work that is timed.
ghost use Rattle.std.specs.Prelude.{◌<◌, ◌^◌};

use rng_util::Gen;

// N values, each made of one draw.
#[tactic(auto, unfolding(rng_util::specs::Gen::draw_of))]
pub fn drawn<T: Copy, const N: usize, F: Fn(u64) -> T>(word: u64, blank: T, make: F) -> [T; N]
    requires callable { F.IsAlwaysCallable make }
    requires few { N < 2 ^ 63 }
{
    let mut rng = Gen::new(word);
    let mut xs = [blank; N];
    for x in &mut xs {
        *x = make(rng.draw());
    }
    xs
}
