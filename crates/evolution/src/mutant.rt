// The mutant of a slot (`create_mutant_with_rng`): double arithmetic, one rounding per operation.
ghost use Rattle.std.specs.Prelude.{◌≡◌, ◌<◌, ◌≤◌, ◌^◌, length};
ghost use Rattle.rng_util.specs.Gen.{made};
ghost use Rattle.rng_util.specs.Many.{padded, pad_to};
ghost use Rattle.common.specs.Bounds.{zero_f};
ghost use Rattle.evolution.specs.Mutant.{entries, mutant_entry, mutant_of, mutated};

use crate::select::select_random_indices;
use crate::{DEStrategy, Indices, Member, Setup};
use rng_util::Gen;

// One entry of the mutant, of the entries of the slot, the best slot and the drawn ones.
#[tactic(auto, unfolding(crate::specs::Mutant::mutant_entry))]
fn mutant_entry(strategy: DEStrategy, f: f64, x: f64, b: f64, x1: f64, x2: f64, x3: f64) -> f64
    ensures { result ≡ mutant_entry strategy f x b x1 x2 x3 }
{
    match strategy {
        DEStrategy::Rand1 => x1 + f * (x2 - x3),
        DEStrategy::Best1 => b + f * (x1 - x2),
        DEStrategy::CurrentToBest1 => x + f * (b - x) + f * (x1 - x2),
    }
}

// The mutant's n entries.
fn create_mutant(
    setup: &Setup,
    parents: &[Member],
    best: usize,
    target: usize,
    n: usize,
    t: Indices,
) -> [f64; 16]
    requires slots { (best < length parents.now) × (target < length parents.now) × (n ≤ 16) }
    requires drawn { (t.r1 < length parents.now) × (t.r2 < length parents.now) × (t.r3 < length parents.now) }
    ensures { result ≡ pad_to 16 zero_f (mutant_of setup.now (entries parents.now) best target n t) }
{
    let x = &parents[target].candidate.x;
    let b = &parents[best].candidate.x;
    let x1 = &parents[t.r1].candidate.x;
    let x2 = &parents[t.r2].candidate.x;
    let x3 = &parents[t.r3].candidate.x;
    let f = setup.mutation_factor;
    let mut v = [0.0; 16];
    // By place: five rows are read at each.
    for j in 0..n {
        v[j] = mutant_entry(setup.strategy, f, x[j], b[j], x1[j], x2[j], x3[j]);
    }
    v
}

// The indices are drawn, and the mutant is made of the parents that they name.
pub fn create_mutant_with_rng(
    setup: &Setup,
    parents: &[Member],
    best: usize,
    target: usize,
    n: usize,
    rng: &mut Gen,
) -> [f64; 16]
    requires slots { (4 ≤ length parents.now) × (best < length parents.now) × (target < length parents.now) }
    requires dims { n ≤ 16 }
    requires draws { rng.old.draws < 2 ^ 61 }
    ensures { made result rng.new ≡ padded 16 zero_f (mutated setup.now (entries parents.now) (length parents.now) best target n rng.old) }
{
    let count = setup.strategy.index_count();
    let t = select_random_indices(parents.len(), count, target, rng);
    create_mutant(setup, parents, best, target, n, t)
}
