// The draw ceiling, for callers that watch how long a call can take.
ghost use Rattle.std.specs.Prelude.{◌≡◌};
ghost use Rattle.kernel.specs.Ceiling.{per_slot};
ghost use Rattle.de.specs.Ceiling.{ceiling_for};

use evolution::DEStrategy;

// 1,024 draws for each index of a slot's mutation.
#[tactic(auto, using(crate::proofs::Ceilings::slots))]
fn per_slot(strategy: DEStrategy) -> u64
    ensures { result ≡ per_slot strategy }
{
    1024 * (strategy.index_count() as u64)
}

// What a sample call draws at most that leaves n slots (0 before discovery has ended) and n_dims dimensions. No sampler has
// more than 160 slots or 16 dimensions, and there it is 0.
#[tactic(auto, using(crate::proofs::Ceilings::ceilings))]
pub fn draw_ceiling(n: u64, n_dims: u64, strategy: DEStrategy) -> u64
    ensures { result ≡ ceiling_for strategy n n_dims }
{
    if n > 160 || n_dims > 16 {
        return 0;
    }
    if n == 0 {
        return n_dims;
    }
    n * (per_slot(strategy) + n_dims)
}
