// The sample call (sampler/de.rs, `sample`): refusals first, then discovery, closing and assignment.
ghost use Rattle.std.specs.Prelude.{List, ◌≡◌, ◌≤◌, length};
ghost use Rattle.std.specs.Iterator.{Drains, IsFinite};
ghost use Rattle.assignment.specs.Raw.{given};
ghost use Rattle.assignment.specs.Laid.{laid_given};
ghost use Rattle.de.specs.Answer.{numbered, returned, sampled};
ghost use Rattle.de.specs.Gathered.{accepted_on, sampled_on, row_in, results_in, closing_results};
ghost use Rattle.de.specs.Refusing.{count_refusal, first_refusal};
ghost use Rattle.de.specs.Sample.{sample_of};
ghost use Rattle.de.specs.Whole.{Acceptable, Handed};
ghost use Rattle.history.specs.Scan.{trials_of};
ghost use Rattle.history.specs.declared.CompletedTrial.{CompletedTrial};
ghost use Rattle.state.specs.Measured.{Measured};

use crate::Sampled;
use crate::ask::ask;
use assignment::discovery::{discovers, finalize_discovery, sample_discovery};
use assignment::places::place_of;
use assignment::sample_active;
use closing::{close, closes_now};
use distribution::{Distribution, ParamValue, Refusal};
use history::{CompletedTrial, Gathered, TrialState, scan};
use rng_util::Gen;
use state::State;

// Of the refusals 9 and 10, the one that applies: a 17th dimension of the first trial, or a 65th extra.
#[tactic(auto, unfolding(crate::specs::Refusing::count_refusal))]
fn count_refusal(
    state: &State,
    of_discovery: bool,
    closes: bool,
    place: usize,
) -> Result<(), Refusal>
    requires { state.now.n ≤ 160 }
    ensures { result ≡ count_refusal state.now.discovered of_discovery state.now.n_dims closes place state.now.n state.now.n_trials }
{
    if state.discovered {
        if !closes && state.n_trials <= place && state.n + 64 <= state.n_trials {
            return Err(Refusal::ExtraTrials);
        }
    } else if of_discovery && 16 <= state.n_dims {
        return Err(Refusal::Dimensions);
    }
    Ok(())
}

// The first of the refusals 4 to 10. It stands apart, with the last of them handed in, since callers have its equation with the definition.
#[tactic(auto, unfolding(crate::specs::Refusing::first_refusal))]
pub fn refusal_of(d: Distribution, nan: bool, counts: Result<(), Refusal>) -> Result<(), Refusal>
    ensures { result ≡ first_refusal d nan counts }
{
    d.validate()?;
    if nan {
        return Err(Refusal::HistoryNan);
    }
    counts
}

// What the history gives the wanted trials, as results; where it gives none, 0, which no closing counts.
fn results_of(values: &[Option<f64>; 160]) -> [f64; 160]
    ensures { result ≡ results_in values.now }
{
    values.map(|value| value.unwrap_or(0.0))
}

// The results that the generation closes with, if it closes. Not by `then` with a closure: tried, and `returns` stays open.
fn closing_results(state: &State, values: &[Option<f64>; 160]) -> Option<[f64; 160]>
    requires { state.now.n ≤ length values.now }
    ensures { result ≡ closing_results state.now values.now }
{
    if closes_now(state, values) {
        return Some(results_of(values));
    }
    None
}

// A call that no refusal stops: it closes a generation first where it has the results, or may end discovery.
fn accept(
    state: &mut State,
    d: Distribution,
    trial: u64,
    results: &Option<[f64; 160]>,
) -> (ParamValue, u64)
    requires { Acceptable state.old d trial results.now }
    ensures { given result state.new ≡ laid_given state.old.setup (accepted_on state.old d trial results.now) }
{
    if state.discovered {
        let rng = match results {
            Some(results) => close(state, results),
            None => Gen::new(state.word),
        };
        return sample_active(state, d, trial, rng);
    }
    if discovers(state.first, trial) {
        return sample_discovery(state, d, trial);
    }
    let rng = finalize_discovery(state);
    sample_active(state, d, trial, rng)
}

// A call of any kind, given what its history has: the setting and its draws.
fn sample_any(
    state: &mut State,
    d: Distribution,
    trial: u64,
    g: &Gathered,
) -> Result<(ParamValue, u64), Refusal>
    requires { Handed state.old g.now }
    ensures { numbered (sampled result state.new) ≡ sampled_on state.old d trial g.now.nan (row_in state.old g.now.values) }
{
    if !state.is_sound() {
        return Err(Refusal::StateNotSound);
    }
    let results = closing_results(state, &g.values);
    let place = place_of(state.trials(), trial);
    let of_discovery = discovers(state.first, trial);
    let counts = count_refusal(state, of_discovery, results.is_some(), place);
    refusal_of(d, g.nan, counts)?;
    Ok(accept(state, d, trial, &results))
}

// The call, given what its history has: its answer and its draws. A refusal counts none.
fn sample_gathered(
    state: &mut State,
    d: Distribution,
    trial: u64,
    g: &Gathered,
) -> (Result<ParamValue, Refusal>, u64)
    requires { Handed state.old g.now }
    ensures { numbered (returned result state.new) ≡ sampled_on state.old d trial g.now.nan (row_in state.old g.now.values) }
{
    match sample_any(state, d, trial, g) {
        Ok((setting, draws)) => (Ok(setting), draws),
        Err(refusal) => (Err(refusal), 0),
    }
}

// The call over the entries of a history: its answer and its draws. The state is lent: one on the move is 67 KB. It is public for the
// library, whose entries are in numbers; the calls over slices require nothing.
pub fn sample_over<I: Iterator<Item = CompletedTrial> + Drop>(
    state: &mut State,
    d: Distribution,
    trial: u64,
    entries: I,
) -> (Result<ParamValue, Refusal>, u64)
    requires sized { Measured state.old }
    requires can { I.can_next entries }
    requires ends { IsFinite (I.remaining entries) }
    ensures { (es : List CompletedTrial) × Drains I.next_gives entries es × (numbered (returned result state.new) ≡ sample_of state.old d trial es) }
{
    let asked = ask(state);
    let wanted = asked.numbers.as_slice();
    let g = scan(entries, asked.lo, asked.hi, wanted, Gathered::new());
    sample_gathered(state, d, trial, &g)
}

// The sample call over plain slices, a number, a value and a state for each entry of the history.
pub fn sample_slices(
    mut state: State,
    distribution: Distribution,
    trial: u64,
    numbers: &[u64],
    values: &[f64],
    states: &[TrialState],
) -> Sampled
    ensures { numbered result ≡ sample_of state distribution trial (trials_of numbers.now values.now states.now) }
{
    let parts = numbers.iter().zip(values).zip(states);
    let entries = parts.map(|((number, value), state)| CompletedTrial {
        number: *number,
        value: *value,
        state: *state,
    });
    let (answer, draws) = sample_over(&mut state, distribution, trial, entries);
    Sampled {
        answer,
        state,
        draws,
    }
}

// The sample call over a slice of completed trials. Distribution and trial are the parameters of the Rust's own `sample`.
pub fn sample(
    mut state: State,
    distribution: Distribution,
    trial: u64,
    history: &[CompletedTrial],
) -> Sampled
    ensures { numbered result ≡ sample_of state distribution trial history.now }
{
    let entries = history.iter().copied();
    let (answer, draws) = sample_over(&mut state, distribution, trial, entries);
    Sampled {
        answer,
        state,
        draws,
    }
}
