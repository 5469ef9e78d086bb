// The small structs that cross, each with its own fields numbered from 1 on in the order of declaration (specs/Marks).
// Each is a literal that names every field of a C struct. None takes its rest from a blank of `edge`: every value here is another.
ghost use Rattle.std.specs.Prelude.{◌≡◌, ◌-◌, ◌≤◌};
ghost use Rattle.layout.specs.Marks.{ends, setup_marks, distribution_marks, candidate_marks, member_marks, progress_marks, look_marks, answer_marks, setting_marks, internal_marks, completed_marks, file_marks, read_marks, count_marks};

use candidates::Candidate;
use edge::answers::DeAnswer;
use edge::flat::{DeDistribution, DeSetup};
use edge::internal::{DeInternal, DeSetting};
use edge::look::DeLook;
use edge::trial::DeCompletedTrial;
use evolution::Member;
use files::file::DeFile;
use files::read::DeRead;
use lists::sweeps::DeCount;
use state::TrialProgress;

// Blank items, but for the first and the last.
pub(crate) fn at_ends<T: Copy, const N: usize>(blank: T, first: T, last: T) -> [T; N]
    requires { 1 ≤ N }
    ensures { result ≡ ends N blank (N - 1) first last }
{
    let mut items = [blank; N];
    items[0] = first;
    items[N - 1] = last;
    items
}

#[tactic(auto, using(crate::proofs::Reals::reals), unfolding(crate::specs::Marks::setup_marks))]
pub fn setup_marks() -> DeSetup
    ensures { result ≡ setup_marks }
{
    DeSetup {
        mutation_factor: 1.0,
        crossover_rate: 2.0,
        strategy: 3,
        sized: 4,
        population_size: 5,
        seed: 6,
        bounds_rule: 7,
    }
}

#[tactic(auto, using(crate::proofs::Reals::reals), unfolding(crate::specs::Marks::distribution_marks))]
pub fn distribution_marks() -> DeDistribution
    ensures { result ≡ distribution_marks }
{
    DeDistribution {
        kind: 1,
        low: 2.0,
        high: 3.0,
        whole_low: 4,
        whole_high: 5,
        log_scale: 6,
        stepped: 7,
        step: 8.0,
        whole_step: 9,
        n_choices: 10,
    }
}

#[tactic(auto, using(crate::proofs::Reals::reals), unfolding(crate::specs::Marks::candidate_marks))]
pub fn candidate_marks() -> Candidate
    ensures { result ≡ candidate_marks }
{
    Candidate {
        x: at_ends(0.0, 1.0, 2.0),
        choices: at_ends(0, 3, 4),
    }
}

#[tactic(auto, using(crate::proofs::Reals::reals), unfolding(crate::specs::Marks::member_marks))]
pub fn member_marks() -> Member
    ensures { result ≡ member_marks }
{
    Member {
        candidate: candidate_marks(),
        value: 1.0,
    }
}

pub fn progress_marks() -> TrialProgress
    ensures { result ≡ progress_marks }
{
    TrialProgress {
        number: 1,
        next_dim: 2,
    }
}

#[tactic(auto, using(crate::proofs::Reals::reals), unfolding(crate::specs::Marks::look_marks))]
pub fn look_marks() -> DeLook
    ensures { result ≡ look_marks }
{
    DeLook {
        kind: 1,
        refusal: 2,
        best: 3,
        n: 4,
        closed: 5,
        idle: 6,
        values: at_ends(0.0, 7.0, 8.0),
    }
}

#[tactic(auto, using(crate::proofs::Reals::reals), unfolding(crate::specs::Marks::answer_marks))]
pub fn answer_marks() -> DeAnswer
    ensures { result ≡ answer_marks }
{
    DeAnswer {
        kind: 1,
        refusal: 2,
        real: 3.0,
        whole: 4,
        choice: 5,
        draws: 6,
    }
}

#[tactic(auto, using(crate::proofs::Reals::reals), unfolding(crate::specs::Marks::setting_marks))]
pub fn setting_marks() -> DeSetting
    ensures { result ≡ setting_marks }
{
    DeSetting {
        kind: 1,
        real: 2.0,
        whole: 3,
        choice: 4,
    }
}

#[tactic(auto, using(crate::proofs::Reals::reals), unfolding(crate::specs::Marks::internal_marks))]
pub fn internal_marks() -> DeInternal
    ensures { result ≡ internal_marks }
{
    DeInternal {
        kind: 1,
        refusal: 2,
        value: 3.0,
    }
}

#[tactic(auto, using(crate::proofs::Reals::reals), unfolding(crate::specs::Marks::completed_marks))]
pub fn completed_marks() -> DeCompletedTrial
    ensures { result ≡ completed_marks }
{
    DeCompletedTrial {
        number: 1,
        value: 2.0,
        state: 3,
    }
}

pub fn file_marks() -> DeFile
    ensures { result ≡ file_marks }
{
    DeFile {
        kind: 1,
        refusal: 2,
        length: 3,
    }
}

pub fn read_marks() -> DeRead
    ensures { result ≡ read_marks }
{
    DeRead {
        kind: 1,
        refusal: 2,
        count: 3,
        line: 4,
    }
}

pub fn count_marks() -> DeCount
    ensures { result ≡ count_marks }
{
    DeCount {
        kind: 1,
        refusal: 2,
        count: 3,
    }
}
