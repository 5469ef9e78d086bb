// Place tests: what is in use is right, and what is not is as in a fresh state.
ghost use Rattle.std.specs.Prelude.{Bool, List, ◌≡◌, ◌&&◌, map, ◌≤◌, length};
ghost use Rattle.rng_util.specs.Many.{pad_to};
ghost use Rattle.distribution.specs.Dims.{choices_of};
ghost use Rattle.candidates.specs.Space.{FewChoices};
ghost use Rattle.ledger.specs.Words.{all};
ghost use Rattle.kernel.specs.Fits.{is_zero, entry_fits, choice_limit, fits};
ghost use Rattle.state.specs.Blank.{is_blank_dim, is_blank_trial, is_blank_candidate, is_blank_member};
ghost use Rattle.state.specs.Places.{Answers, places_fit, passes, limits_of, choices_below, next_fits, member_fits};

use super::TrialProgress;
use candidates::{Candidate, continuous_count};
use distribution::{DimensionInfo, Distribution};
use evolution::Member;

// The largest size of an entry.
const ENTRY_LIMIT: f64 = 4e300;

// What the tests of candidates read of the dimensions, made once: how many are continuous, and what each choice stays
// below. n counts entries, and not the choices beside it: each of a candidate's 16 has its limit.
#[derive(Clone, Copy)]
pub struct Limits {
    pub n: usize,
    pub choices: [u16; 16],
}

// Whether each item passes. There is no early way out: without a branch many items are tested at once.
fn all_pass<T, F: Fn(&T) -> bool>(items: &[T], passes: F) -> bool
    requires { F.IsAlwaysCallable passes }
    ensures { (p : T → Bool) → Answers F.Fn passes p → result ≡ all p items.now }
{
    let mut fit = true;
    for item in items {
        fit &= passes(item);
    }
    fit
}

// The first `count` items are in use, and right; the others are blank.
pub fn places_fit<T, R: Fn(&T) -> bool, B: Fn(&T) -> bool>(
    items: &[T],
    count: usize,
    right: R,
    blank: B,
) -> bool
    requires right_callable { R.IsAlwaysCallable right }
    requires blank_callable { B.IsAlwaysCallable blank }
    ensures { (p q : T → Bool) → Answers R.Fn right p → Answers B.Fn blank q → result ≡ places_fit p q count items.now }
{
    let count = count.min(items.len());
    all_pass(&items[..count], right) & all_pass(&items[count..], blank)
}

// Plus zero, as an unused entry is: -0.0 equals it, and is another double.
#[tactic(auto, using(crate::proofs::Floats::zeros))]
fn is_zero(v: f64) -> bool
    ensures { result ≡ is_zero v }
{
    std::num::f64_to_bits_with_nan(v) == 0
}

// Finite, and not over 4e300 in size: NaN fails both tests.
#[tactic(auto, using(crate::proofs::Floats::limit_held), unfolding(kernel::specs::Fits::entry_fits))]
fn entry_fits(v: f64) -> bool
    ensures { result ≡ entry_fits v }
{
    (-ENTRY_LIMIT <= v) & (v <= ENTRY_LIMIT)
}

// n entries that fit, and unused ones after them.
fn entries_fit(x: &[f64], n: usize) -> bool
    ensures { result ≡ places_fit entry_fits is_zero n x.now }
{
    places_fit(x, n, |v| entry_fits(*v), |v| is_zero(*v))
}

// Without an early way out, as `all_pass`, which goes through one list and not through two.
fn choices_fit(choices: &[u16; 16], limits: &[u16; 16]) -> bool
    ensures { result ≡ choices_below choices.now limits.now }
{
    let mut fit = true;
    for (choice, limit) in choices.iter().zip(limits) {
        fit &= choice < limit;
    }
    fit
}

// A candidate of the dimensions that the limits are of.
pub fn candidate_fits(c: &Candidate, limits: &Limits) -> bool
    ensures { (ds : List DimensionInfo) → length ds ≤ 16 → limits.now ≡ limits_of ds → result ≡ fits ds c.now }
{
    entries_fit(&c.x, limits.n) & choices_fit(&c.choices, &limits.choices)
}

#[tactic(auto, using(crate::proofs::Fitting::blanks))]
pub fn is_blank_candidate(c: &Candidate) -> bool
    ensures { result ≡ is_blank_candidate c.now }
{
    all_pass(&c.x, |v| is_zero(*v)) & all_pass(&c.choices, |choice| *choice == 0)
}

// A parent of the dimensions that the limits are of.
#[tactic(auto, using(crate::proofs::Floats::number_is))]
pub fn member_fits(m: &Member, limits: &Limits) -> bool
    ensures { (ds : List DimensionInfo) → length ds ≤ 16 → limits.now ≡ limits_of ds → result ≡ member_fits ds m.now }
{
    candidate_fits(&m.candidate, limits) & !m.value.is_nan()
}

pub fn is_blank_member(m: &Member) -> bool
    ensures { result ≡ is_blank_member m.now }
{
    is_blank_candidate(&m.candidate) & is_zero(m.value)
}

pub fn passes(d: &DimensionInfo) -> bool
    ensures { result ≡ passes d.now }
{
    d.distribution.validate().is_ok()
}

pub fn is_blank_dim(d: &DimensionInfo) -> bool
    ensures { result ≡ is_blank_dim d.now }
{
    matches!(d.distribution, Distribution::Categorical(c) if c.n_choices == 0)
}

pub fn next_fits(t: &TrialProgress, n_dims: usize) -> bool
    ensures { result ≡ next_fits n_dims t.now }
{
    t.next_dim <= n_dims
}

pub fn is_blank_trial(t: &TrialProgress) -> bool
    ensures { result ≡ is_blank_trial t.now }
{
    *t == TrialProgress::blank()
}

// What a dimension's choice stays below: 1 where it is continuous, since 0 stands there.
fn choice_limit(d: &DimensionInfo) -> u16
    requires { choices_of d.now ≤ 65535 }
    ensures { result ≡ choice_limit d.now }
{
    match d.distribution {
        Distribution::Float(_) | Distribution::Int(_) => 1,
        Distribution::Categorical(c) => c.n_choices as u16,
    }
}

// Three lines here and three in slots' `slot_values`: one function for both would say four clauses of its closure, as `read_rows` of
// opened does.
#[tactic(auto, using(crate::proofs::Fitting::limits))]
fn choice_limits(dims: &[DimensionInfo]) -> [u16; 16]
    requires { (length dims.now ≤ 16) × FewChoices dims.now }
    ensures { result ≡ pad_to 16 1 (map choice_limit dims.now) }
{
    let mut limits = [1u16; 16];
    for (k, d) in dims.iter().enumerate() {
        limits[k] = choice_limit(d);
    }
    limits
}

// The limits of dimensions that pass 7.
pub fn limits_of(dims: &[DimensionInfo]) -> Limits
    requires { (length dims.now ≤ 16) × FewChoices dims.now }
    ensures { result ≡ limits_of dims.now }
{
    Limits {
        n: continuous_count(dims),
        choices: choice_limits(dims),
    }
}
