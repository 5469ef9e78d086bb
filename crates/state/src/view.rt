// What is in use of a state.
ghost use Rattle.std.specs.Prelude.{◌≡◌, take};
ghost use Rattle.state.specs.View.{candidate_count, parent_count, dims_of, candidates_of, trials_of, members_of};

use super::{State, TrialProgress};
use candidates::Candidate;
use distribution::DimensionInfo;
use evolution::Member;

// The first `count` items, all where there are fewer.
pub fn first<T>(items: &[T], count: usize) -> &[T]
    ensures { result.now ≡ take count items.now }
{
    &items[..count.min(items.len())]
}

impl State {
    // After discovery N candidates, and one for each trial past N.
    pub fn candidate_count(&self) -> usize
        ensures { result ≡ candidate_count self.now }
    {
        if self.discovered {
            self.n.max(self.n_trials)
        } else {
            0
        }
    }

    // N parents once a generation has closed.
    pub fn parent_count(&self) -> usize
        ensures { result ≡ parent_count self.now }
    {
        if self.closed == 0 { 0 } else { self.n }
    }

    // The discovered dimensions. Lists are lent as slices, here and below. That they are at most 16, 160 and so on is asked by those who need
    // it: a type with the bound would be made at each call.
    pub fn dims(&self) -> &[DimensionInfo]
        ensures { result.now ≡ dims_of self.now }
    {
        first(&self.dims, self.n_dims)
    }

    pub fn candidates(&self) -> &[Candidate]
        ensures { result.now ≡ candidates_of self.now }
    {
        first(&self.candidates, self.candidate_count())
    }

    // The open trials.
    pub fn trials(&self) -> &[TrialProgress]
        ensures { result.now ≡ trials_of self.now }
    {
        first(&self.trials, self.n_trials)
    }

    pub fn parents(&self) -> &[Member]
        ensures { result.now ≡ members_of self.now }
    {
        first(&self.parents, self.parent_count())
    }
}
