// The words of each kind.
ghost use Rattle.std.specs.Prelude.{◌≡◌, ◌+◌, ◌*◌, ◌≤◌, ◌++◌, length};
ghost use Rattle.kinds.specs.Rows.{dim_has_place, dim_words, trial_words, candidate_words, member_words};
ghost use Rattle.std.specs.List.{flat_map, list_all};
ghost use Rattle.kinds.specs.Kinds.{count_words, has_place, kind_number, kind_words, Roomy};

use crate::kind::Kind;
use crate::rows::{dim_has_place, dim_row, setup_has_place, setup_row, trial_row};
use crate::section::Section;
use crate::vectors::{put_candidate, put_member};
use candidates::Candidate;
use distribution::DimensionInfo;
use evolution::Member;
use state::{State, TrialProgress};

fn dims_have_place(dims: &[DimensionInfo]) -> bool
    ensures { result ≡ list_all dim_has_place dims.now }
{
    dims.iter().all(|d| dim_has_place(d))
}

// Whether the words hold the whole state.
pub fn has_place(s: &State) -> bool
    ensures { result ≡ has_place s.now }
{
    setup_has_place(s.setup) && dims_have_place(s.dims())
}

#[tactic(auto, unfolding(crate::specs::Kinds::count_words))]
fn count_row(s: &State) -> [u64; 10]
    ensures { result ≡ count_words s.now }
{
    [
        u64::from(s.first.is_some()),
        s.first.unwrap_or(0),
        u64::from(s.discovered),
        s.n as u64,
        s.n_dims as u64,
        s.n_trials as u64,
        u64::from(s.closed),
        u64::from(s.idle),
        s.best as u64,
        s.word,
    ]
}

// Four loops alike: one function for them would be handed a closure that appends, and its law would be longer than the loop.
fn put_dims(section: &mut Section, dims: &[DimensionInfo])
    requires { length section.old + 5 * length dims.now ≤ 3600 }
    ensures { section.new ≡ section.old ++ flat_map dim_words dims.now }
{
    for d in dims {
        section.extend_from_slice(&dim_row(*d));
    }
}

fn put_trials(section: &mut Section, trials: &[TrialProgress])
    requires { length section.old + 2 * length trials.now ≤ 3600 }
    ensures { section.new ≡ section.old ++ flat_map trial_words trials.now }
{
    for t in trials {
        section.extend_from_slice(&trial_row(*t));
    }
}

fn put_parents(section: &mut Section, parents: &[Member], dims: &[DimensionInfo])
    requires { (length dims.now ≤ 16) × (length section.old + (length dims.now + 1) * length parents.now ≤ 3600) }
    ensures { section.new ≡ section.old ++ flat_map (member_words dims.now) parents.now }
{
    for m in parents {
        put_member(section, m, dims);
    }
}

fn put_candidates(section: &mut Section, candidates: &[Candidate], dims: &[DimensionInfo])
    requires { (length dims.now ≤ 16) × (length section.old + length dims.now * length candidates.now ≤ 3600) }
    ensures { section.new ≡ section.old ++ flat_map (candidate_words dims.now) candidates.now }
{
    for c in candidates {
        put_candidate(section, c, dims);
    }
}

// The words of a kind. `Roomy` is asked at each function: a state may be handed in whose counts are past its places.
#[tactic(auto, unfolding(crate::specs::Kinds::kind_words, crate::specs::Kinds::dims_words, crate::specs::Kinds::trials_words, crate::specs::Kinds::parents_words, crate::specs::Kinds::candidates_words))]
pub fn section_of(s: &State, kind: Kind) -> Section
    requires { Roomy s.now }
    ensures { result ≡ kind_words s.now (kind_number kind) }
{
    let dims = s.dims();
    let mut section = Section::new();
    match kind {
        Kind::Setup => section.extend_from_slice(&setup_row(s.setup)),
        Kind::Counts => section.extend_from_slice(&count_row(s)),
        Kind::Dimensions => put_dims(&mut section, dims),
        Kind::Trials => put_trials(&mut section, s.trials()),
        Kind::Parents => put_parents(&mut section, s.parents(), dims),
        Kind::Candidates => put_candidates(&mut section, s.candidates(), dims),
    }
    section
}
