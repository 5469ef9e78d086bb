// Refusals 1 to 3: which set-ups the sampler takes.
ghost use Rattle.std.specs.Prelude.{◌≡◌};
ghost use Rattle.kernel.specs.Setup.{outside, size_fails, setup_verdict};

use distribution::Refusal;
use evolution::Setup;

// The most slots.
const SIZE_LIMIT: u64 = 160;

// NaN, below 0 or above the limit. It is not `(0.0..=most).contains(&v)`: where `most` is NaN that answers otherwise than the definition.
fn is_outside(v: f64, most: f64) -> bool
    ensures { result ≡ outside most v }
{
    v.is_nan() || v < 0.0 || v > most
}

// Refusal 3.
fn size_fails(size: Option<u64>) -> bool
    ensures { result ≡ size_fails size }
{
    size.is_some_and(|n| n > SIZE_LIMIT)
}

// The first refusal of 1 to 3 that applies.
pub fn validate_setup(setup: Setup) -> Result<(), Refusal>
    ensures { result ≡ setup_verdict setup }
{
    if is_outside(setup.mutation_factor, 2.0) {
        Err(Refusal::MutationFactor)
    } else if is_outside(setup.crossover_rate, 1.0) {
        Err(Refusal::CrossoverRate)
    } else if size_fails(setup.population_size) {
        Err(Refusal::PopulationSize)
    } else {
        Ok(())
    }
}
