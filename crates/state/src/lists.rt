// The numbers of the open trials.
ghost use Rattle.std.specs.Prelude.{◌≡◌};
ghost use Rattle.ledger.specs.Words.{has, differing};
ghost use Rattle.state.specs.Places.{increasing, numbers_of};

use super::TrialProgress;

// Each number is above the one before it.
fn is_increasing(trials: &[TrialProgress]) -> bool
    ensures { result ≡ increasing (numbers_of trials.now) }
{
    trials.is_sorted_by(|a, b| a.number < b.number)
}

fn has_number(trials: &[TrialProgress], number: u64) -> bool
    ensures { result ≡ has (numbers_of trials.now) number }
{
    trials.iter().any(|trial| trial.number == number)
}

// Each number against those after it. No index is counted, and no iterator hands out an item together with what is left: with
// `enumerate` and `all` the closure would slice from i + 1 on, and ask that i is a place.
#[tactic(auto, using(crate::proofs::Numbers::differs))]
fn all_differ(trials: &[TrialProgress]) -> bool
    ensures { result ≡ differing (numbers_of trials.now) }
{
    let mut rest = trials;
    while let Some((first, later)) = rest.split_first() {
        if has_number(later, first.number) {
            return false;
        }
        rest = later;
    }
    true
}

// Whether the numbers of the trials differ: in one pass where they increase, as they mostly do.
#[tactic(auto, using(crate::proofs::Numbers::rising_differ))]
pub fn numbers_differ(trials: &[TrialProgress]) -> bool
    ensures { result ≡ differing (numbers_of trials.now) }
{
    is_increasing(trials) || all_differ(trials)
}
