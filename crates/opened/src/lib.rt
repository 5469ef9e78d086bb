// The state that six tables of words stand for, whether sound or not.
#![tactic(auto)]

ghost use Rattle.std.specs.Prelude.{◌≡◌, ℕ, List, ◌*◌, ◌≤◌, length};
ghost use Rattle.rng_util.specs.Many.{listed, pad_to};
ghost use Rattle.kinds.specs.Opened.{row, state_of};

use candidates::Candidate;
use distribution::DimensionInfo;
use kinds::rows::{DIM_WIDTH, TRIAL_WIDTH, dim_in, setup_in, trial_in, word_option};
use kinds::vectors::{candidate_in, member_in};
use records::Table;
use selection::blank_member;
use state::{State, TrialProgress};

// N items, the first `n` of them each from its row of `width` words; the others are blank. By index: std's chunks are never empty, and a
// candidate of no dimensions is a row of no words.
fn read_rows<T: Copy, const N: usize, F: Fn(&[u64]) -> T>(
    blank: T,
    n: usize,
    words: &[u64],
    width: usize,
    read: F,
) -> [T; N]
    ghost reads: { List ℕ → T }
    requires few { n ≤ N }
    requires room { n * width ≤ length words.now }
    requires callable { (part : _) → length part.now ≡ width → F.pre read part }
    requires gives { (part item : _) → F.post read part item → item ≡ reads part.now }
    ensures { result ≡ pad_to N blank (listed (λ i. reads (row words.now width i)) n 0) }
{
    let mut items = [blank; N];
    for i in 0..n {
        items[i] = read(&words[i * width..(i + 1) * width]);
    }
    items
}

// The state of six tables, in the order of their kinds.
pub fn state_in(tables: &[Table; 6]) -> State
    ensures { result ≡ state_of tables.now }
{
    let [setup, counts, dims, trials, parents, candidates] = tables;
    let [
        named,
        first,
        discovered,
        n,
        n_dims,
        n_trials,
        closed,
        idle,
        best,
        word,
        ..
    ] = counts.words;
    let n_dims = n_dims as usize;
    let n_trials = n_trials as usize;
    let d = n_dims.min(16);
    let dims = read_rows(DimensionInfo::blank(), d, &dims.words, DIM_WIDTH, dim_in);
    let trials = read_rows(
        TrialProgress::blank(),
        n_trials.min(224),
        &trials.words,
        TRIAL_WIDTH,
        trial_in,
    );
    // Parents and candidates come after: their rows are as long as the dimensions say.
    let mut state = State {
        setup: setup_in(&setup.words),
        first: word_option(named, first),
        discovered: discovered == 1,
        n: n as usize,
        n_dims,
        dims,
        candidates: [Candidate::blank(); 224],
        parents: [blank_member(); 160],
        n_trials,
        trials,
        best: best as usize,
        word,
        closed: (closed % 4294967296) as u32,
        idle: (idle % 4294967296) as u32,
    };
    let n_parents = state.parent_count().min(160);
    let n_candidates = state.candidate_count().min(224);
    prove!(n_parents * (d + 1) <= 3600);
    prove!(n_candidates * d <= 3600);
    let used = &dims[..d];
    let parent = |row: &[u64]| member_in(row, used);
    state.parents = read_rows(blank_member(), n_parents, &parents.words, d + 1, parent);
    let candidate = |row: &[u64]| candidate_in(row, used);
    state.candidates = read_rows(
        Candidate::blank(),
        n_candidates,
        &candidates.words,
        d,
        candidate,
    );
    state
}
