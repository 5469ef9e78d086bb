// The leaf parts of closing a generation (sampler/de.rs: `finalize_discovery`'s size, `initialize_population`,
// `perform_selection`): which row stays, what each slot holds, and which slot is best.
#![tactic(auto)]

ghost use Rattle.std.specs.Prelude.{◌≡◌, ◌≤◌, length, take};
ghost use Rattle.selection.specs.Select.{judged, survivor_of, selected, stored};
ghost use Rattle.selection.specs.Best.{values, best_slot, least_value};
ghost use Rattle.selection.specs.Size.{size_of};
ghost use Rattle.selection.specs.Records.{blank_member, members_rec};

use candidates::Candidate;
use evolution::Member;

// The user's size, raised to 4; unset, the larger of 15 and 10 for each continuous dimension.
pub fn population_size(user: Option<u64>, n_continuous: usize) -> usize
    requires { n_continuous ≤ 16 }
    ensures { result ≡ size_of user n_continuous }
{
    match user {
        None => usize::max(15, 10 * n_continuous),
        Some(n) => u64::max(4, n) as usize,
    }
}

// Of two lent rows of n entries the one that stays: the trial's where its result is at most the parent's. A part of a lent slice
// is handed back, which document 01 asks of this leaf.
#[tactic(auto, unfolding(crate::specs::Select::judged))]
pub fn judge<'a>(
    parent: &'a [f64],
    trial: &'a [f64],
    n: usize,
    parent_value: f64,
    trial_value: f64,
) -> &'a [f64]
    requires { (n ≤ length parent.now) × (n ≤ length trial.now) }
    ensures { result.now ≡ take n (judged parent.now trial.now parent_value trial_value) }
{
    if trial_value <= parent_value {
        &trial[..n]
    } else {
        &parent[..n]
    }
}

// What a slot holds after its trial's result: a result at most the parent's replaces vector, choices and value.
// The vector goes by `judge`, since document 01 asks for a leaf that hands back the row; `judge` knows no choices and no value.
#[tactic(auto, unfolding(crate::specs::Select::judged, crate::specs::Select::survivor_of))]
fn survivor(parent: &Member, trial: &Candidate, res: f64) -> Member
    ensures { result ≡ survivor_of parent.now trial.now res }
{
    let row = judge(&parent.candidate.x, &trial.x, 16, parent.value, res);
    let mut stays = *parent;
    stays.candidate.x.copy_from_slice(row);
    if res <= parent.value {
        stays.candidate.choices = trial.choices;
        stays.value = res;
    }
    stays
}

// A slot that is unused. It is no method of `Member`, which is of evolution, where no slot is unused.
pub fn blank_member() -> Member
    ensures { result ≡ blank_member }
{
    Member {
        candidate: Candidate::blank(),
        value: 0.0,
    }
}

// The first closing stores candidates and results.
pub fn initialize_population(candidates: &[Candidate], results: &[f64]) -> [Member; 160]
    requires { length candidates.now ≤ 160 }
    ensures { result ≡ members_rec (stored candidates.now results.now) }
{
    let mut population = [blank_member(); 160];
    for (i, (candidate, value)) in candidates.iter().zip(results).enumerate() {
        population[i] = Member {
            candidate: *candidate,
            value: *value,
        };
    }
    population
}

// A later closing: each slot's result against its parent's.
pub fn perform_selection(
    parents: &[Member],
    candidates: &[Candidate],
    results: &[f64],
) -> [Member; 160]
    requires { length parents.now ≤ 160 }
    ensures { result ≡ members_rec (selected parents.now candidates.now results.now) }
{
    let mut population = [blank_member(); 160];
    for (i, ((parent, trial), res)) in parents.iter().zip(candidates).zip(results).enumerate() {
        population[i] = survivor(parent, trial, *res);
    }
    population
}

// The first least value's slot; 0 if all are +infinity. By hand: in std's order of all doubles, `total_cmp`, -0.0 is below 0.0.
#[tactic(auto, using(crate::proofs::Running::best_more, crate::proofs::Running::best_all), unfolding(crate::specs::Best::best_slot))]
pub fn best_slot(parents: &[Member]) -> usize
    ensures { result ≡ best_slot (values parents.now) }
{
    let mut best_value = f64::INFINITY;
    let mut best = 0;
    for (i, member) in parents.iter().enumerate() {
        if member.value < best_value {
            best_value = member.value;
            best = i;
        }
    }
    best
}

// The least value of all slots, which the best slot has; +infinity where there is no slot.
pub fn least_value(parents: &[Member]) -> f64
    ensures { result ≡ least_value (values parents.now) }
{
    parents
        .get(best_slot(parents))
        .map_or(f64::INFINITY, |best| best.value)
}
