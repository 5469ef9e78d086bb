// What an answer says, and whether a refusal left the state as it was.
use de::Sampled;
use distribution::Refusal;
use state::State;

// The call is refused with this number of document 01.
pub fn is_refused<T: Drop>(answer: Result<T, Refusal>, n: u64) -> bool {
    answer.is_err_and(|r| r.number() == n)
}

// The generator's word and the counts are those that came in. A state has doubles, and derives no equality.
fn same_counts(a: &State, b: &State) -> bool {
    a.word == b.word
        && a.n == b.n
        && a.n_dims == b.n_dims
        && a.n_trials == b.n_trials
        && a.closed == b.closed
        && a.idle == b.idle
}

// The call on `before` is refused with this number, counts no draw and hands back the state.
pub fn refused(before: &State, s: Sampled, n: u64) -> bool {
    is_refused(s.answer, n) && s.draws == 0 && same_counts(before, &s.state)
}
