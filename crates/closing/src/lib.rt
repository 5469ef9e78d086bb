// Step 6: a generation closes (sampler/de.rs, `maybe_update_generation`).
#![tactic(auto)]

ghost use Rattle.std.specs.Prelude.{◌≡◌, ◌≤◌, length, take, is_some};
ghost use Rattle.rng_util.specs.Gen.{fresh, made};
ghost use Rattle.ledger.specs.Closing.{new_idle};
ghost use Rattle.selection.specs.Records.{members_rec};
ghost use Rattle.std.specs.List.{list_all};
ghost use Rattle.closing.specs.Raw.{closes_now, parents_after, raw_parents, raw_slots, Closable, raw_close};

use candidates::Candidate;
use evolution::Member;
use rng_util::Gen;
use state::{State, TrialProgress};

// What the closings have made.
#[derive(Clone, Copy)]
pub struct Slots {
    pub parents: [Member; 160],
    pub best: usize,
    pub closed: u32,
    pub idle: u32,
}

// The history has a value for each of these trials.
fn all_found(values: &[Option<f64>]) -> bool
    ensures { result ≡ list_all is_some values.now }
{
    values.iter().all(|value| value.is_some())
}

// Whether a generation closes: at least n trials are assigned, and the history has the first n.
#[tactic(auto, unfolding(crate::specs::Raw::closes_now))]
pub fn closes_now(state: &State, values: &[Option<f64>]) -> bool
    requires { state.now.n ≤ length values.now }
    ensures { result ≡ closes_now state.now.discovered state.now.n state.now.n_trials values.now }
{
    state.discovered && state.n <= state.n_trials && all_found(&values[..state.n])
}

// Idle generations: closed since the least value of all slots last became smaller, 0 up to and at the first closing. Both
// counters stop at the top.
fn new_idle(closed: u32, idle: u32, smaller: bool) -> u32
    ensures { result ≡ new_idle closed idle smaller }
{
    if closed == 0 || smaller {
        0
    } else {
        idle.saturating_add(1)
    }
}

// What each slot holds, in the first places: the first closing stores candidates and results, a later one selects.
#[tactic(auto, using(crate::proofs::Made::kept), unfolding(crate::specs::Raw::parents_after))]
fn new_parents(
    closed: u32,
    parents: &[Member],
    candidates: &[Candidate],
    results: &[f64],
) -> [Member; 160]
    requires few { length parents.now ≤ 160 }
    requires tried { length candidates.now ≡ length parents.now }
    requires told { length results.now ≡ length parents.now }
    ensures whole { result ≡ members_rec (parents_after closed parents.now candidates.now results.now) }
    ensures first { take (length parents.now) result ≡ parents_after closed parents.now candidates.now results.now }
{
    if closed == 0 {
        return selection::initialize_population(candidates, results);
    }
    selection::perform_selection(parents, candidates, results)
}

// The slots after a generation has closed with these results: result i counts for slot i.
fn settle(state: &State, results: &[f64]) -> Slots
    requires { (state.now.n ≤ 160) × (state.now.n ≤ length results.now) }
    ensures whole { result ≡ raw_slots state.now results.now }
    ensures first { take state.now.n result.parents ≡ raw_parents state.now results.now }
{
    let n = state.n;
    let olds = &state.parents[..n];
    let parents = new_parents(state.closed, olds, &state.candidates[..n], &results[..n]);
    let news = &parents[..n];
    let best = selection::best_slot(news);
    let smaller = selection::least_value(news) < selection::least_value(olds);
    Slots {
        parents,
        best,
        closed: state.closed.saturating_add(1),
        idle: new_idle(state.closed, state.idle, smaller),
    }
}

// The generation closes with these results, and the next one begins: new candidates, and no trial yet. What is handed on is
// the generator.
#[inline(never)]
#[tactic(auto, unfolding(crate::specs::Raw::raw_close))]
pub fn close(state: &mut State, results: &[f64]) -> Gen
    requires { Closable state.old × (state.old.n ≤ length results.now) }
    ensures { made state.new result ≡ raw_close state.old results.now (fresh state.old.word) }
{
    let n = state.n;
    let Slots {
        parents,
        best,
        closed,
        idle,
    } = settle(state, results);
    let mut rng = Gen::new(state.word);
    let space = candidates::search_space(state.dims());
    state.candidates = evolution::next_candidates(
        &state.setup,
        &parents[..n],
        best,
        &space,
        &mut rng,
    );
    state.parents = parents;
    state.n_trials = 0;
    state.trials = [TrialProgress::blank(); 224];
    state.best = best;
    state.closed = closed;
    state.idle = idle;
    rng
}
