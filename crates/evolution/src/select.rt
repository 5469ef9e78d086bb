// The indices of a mutant (`select_random_indices`): drawn, and rejected where they may not be taken.
ghost use Rattle.std.specs.Prelude.{◌≡◌, ◌<◌, ◌≤◌, ◌^◌};
ghost use Rattle.rng_util.specs.Gen.{made};
ghost use Rattle.evolution.specs.Select.{is_free, lowest_free, select_index, indices_of};

use crate::Indices;
use rng_util::Gen;

// Whether i is none of those taken.
#[tactic(auto, using(crate::proofs::Free::free_is))]
fn is_free(taken: &[usize], i: usize) -> bool
    ensures { result ≡ is_free taken.now i }
{
    !taken.contains(&i)
}

// The lowest index that is not taken: of three that are taken, one of the first four.
fn lowest_free(taken: &[usize]) -> usize
    ensures { result ≡ lowest_free taken.now }
{
    (0..3).find(|i| is_free(taken, *i)).unwrap_or(3)
}

// An index below n that is not taken; after 1,024 rejected draws the lowest such.
fn select_random_index(n: usize, taken: &[usize], rng: &mut Gen) -> usize
    requires { (4 ≤ n) × (rng.old.draws < 2 ^ 62) }
    ensures { made result rng.new ≡ select_index n taken.now rng.old }
{
    for _ in 0..1024_u32 {
        let i = rng_util::usize_below(rng.draw(), n as u64) as usize;
        if is_free(taken, i) {
            return i;
        }
    }
    lowest_free(taken)
}

// `count` (2 or 3) distinct indices below n, none of them `exclude`. Where two are drawn, nothing uses the third.
pub fn select_random_indices(n: usize, count: usize, exclude: usize, rng: &mut Gen) -> Indices
    requires { (4 ≤ n) × (rng.old.draws < 2 ^ 61) }
    ensures { made result rng.new ≡ indices_of count n exclude rng.old }
{
    let r1 = select_random_index(n, &[exclude], rng);
    let r2 = select_random_index(n, &[exclude, r1], rng);
    let r3 = if count == 3 {
        select_random_index(n, &[exclude, r1, r2], rng)
    } else {
        exclude
    };
    Indices { r1, r2, r3 }
}
