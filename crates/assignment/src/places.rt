// The open trials' places: the i-th trial has candidate i.
ghost use Rattle.std.specs.Prelude.{◌≡◌, map, position, ◌==◌};
ghost use Rattle.ledger.specs.Assignment.{place_in};
ghost use Rattle.assignment.specs.Raw.{number_in};

use state::TrialProgress;

// Where a trial stands, if it is open. On its own: of `position` with `unwrap_or` behind it, `returns` stays open without an answers file.
fn find_place(trials: &[TrialProgress], number: u64) -> Option<usize>
    ensures { result ≡ position (λ t. t.number == number) trials.now }
{
    trials.iter().position(|t| t.number == number)
}

// The place of a trial among the open ones: the next one for a new trial.
#[tactic(auto, using(crate::proofs::PlaceLaws::positions))]
pub fn place_of(trials: &[TrialProgress], number: u64) -> usize
    ensures { result ≡ place_in (map number_in trials.now) number }
{
    find_place(trials, number).unwrap_or(trials.len())
}
