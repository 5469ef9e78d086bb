// One of each struct that crosses, so that a caller can hold its own layout against the library's. Each struct numbers its own
// fields from 1 on in the order of declaration: a number takes the next one, a double holds it as a double, an array of numbers takes
// two, in its first and its last place. A field that is a struct holds that struct's own marks, an array of structs holds them in its
// first and its last place; neither takes a number. So a field more in one struct renumbers nothing in another. The rest is 0.
ghost use Rattle.std.specs.Prelude.{◌≡◌, ◌-◌, ◌≤◌};
ghost use Rattle.layout.specs.Marks.{ends, marked_state, marked_call, marks};

use crate::numbered::{
    answer_marks, at_ends, candidate_marks, completed_marks, count_marks, distribution_marks,
    file_marks, internal_marks, look_marks, member_marks, progress_marks, read_marks,
    setting_marks, setup_marks,
};
use candidates::Candidate;
use edge::answers::{DeAnswer, DeCall};
use edge::flat::{DeDistribution, DeSetup, DeState};
use edge::internal::{DeInternal, DeSetting};
use edge::look::DeLook;
use edge::trial::DeCompletedTrial;
use files::file::DeFile;
use files::read::DeRead;
use lists::sweeps::DeCount;
use selection::blank_member;
use state::TrialProgress;

#[repr(C)]
#[derive(Clone, Copy)]
pub struct DeMarks {
    pub setup: DeSetup,
    pub after_setup: u64,
    pub distribution: DeDistribution,
    pub after_distribution: u64,
    pub call: DeCall,
    pub after_call: u64,
    pub answer: DeAnswer,
    pub after_answer: u64,
    pub look: DeLook,
    pub after_look: u64,
    pub setting: DeSetting,
    pub after_setting: u64,
    pub internal: DeInternal,
    pub after_internal: u64,
    pub trial: DeCompletedTrial,
    pub after_trial: u64,
    pub state: DeState,
    pub after_state: u64,
    pub file: DeFile,
    pub after_file: u64,
    pub read: DeRead,
    pub after_read: u64,
    pub count: DeCount,
    pub after_count: u64,
}

// Blank items, but for the first and the last, which are marked alike.
fn marked_ends<T: Copy, const N: usize>(blank: T, mark: T) -> [T; N]
    requires { 1 ≤ N }
    ensures { result ≡ ends N blank (N - 1) mark mark }
{
    at_ends(blank, mark, mark)
}

#[tactic(auto, unfolding(crate::specs::Marks::marked_state))]
fn marked_state() -> DeState
    ensures { result ≡ marked_state }
{
    DeState {
        setup: setup_marks(),
        named: 1,
        first: 2,
        discovered: 3,
        n: 4,
        n_dims: 5,
        dims: marked_ends(DeDistribution::none(), distribution_marks()),
        candidates: marked_ends(Candidate::blank(), candidate_marks()),
        parents: marked_ends(blank_member(), member_marks()),
        n_trials: 6,
        trials: marked_ends(TrialProgress::blank(), progress_marks()),
        best: 7,
        word: 8,
        closed: 9,
        idle: 10,
    }
}

fn marked_call() -> DeCall
    ensures { result ≡ marked_call }
{
    DeCall {
        trial: 1,
        distribution: distribution_marks(),
    }
}

#[tactic(auto, unfolding(crate::specs::Marks::marks))]
pub fn marked() -> DeMarks
    ensures { result ≡ marks }
{
    DeMarks {
        setup: setup_marks(),
        after_setup: 1,
        distribution: distribution_marks(),
        after_distribution: 2,
        call: marked_call(),
        after_call: 3,
        answer: answer_marks(),
        after_answer: 4,
        look: look_marks(),
        after_look: 5,
        setting: setting_marks(),
        after_setting: 6,
        internal: internal_marks(),
        after_internal: 7,
        trial: completed_marks(),
        after_trial: 8,
        state: marked_state(),
        after_state: 9,
        file: file_marks(),
        after_file: 10,
        read: read_marks(),
        after_read: 11,
        count: count_marks(),
        after_count: 12,
    }
}
