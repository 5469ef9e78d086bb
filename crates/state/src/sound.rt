// Refusal 0: whether a state is sound.
ghost use Rattle.std.specs.Prelude.{is_some, ◌≡◌, ◌≤◌};
ghost use Rattle.std.specs.Bool.{OnTrue};
ghost use Rattle.state.specs.Places.{discovering_counts, running_counts, counts_sound};
ghost use Rattle.state.specs.Sound.{sound_state, Few};

use super::State;
use crate::lists::numbers_differ;
use crate::places::{
    candidate_fits, is_blank_candidate, is_blank_dim, is_blank_member, is_blank_trial, limits_of,
    member_fits, next_fits, passes, places_fit,
};
use crate::setup::validate_setup;
use selection::{best_slot, population_size};

// The most dimensions.
const DIM_LIMIT: usize = 16;

impl State {
    // Before discovery ends.
    #[tactic(auto, unfolding(crate::specs::Places::discovering_counts))]
    fn discovering_counts(&self) -> bool
        ensures { result ≡ discovering_counts self.now }
    {
        (self.n == 0)
            && (self.n_trials == 0)
            && (self.closed == 0)
            && (self.idle == 0)
            && (self.first.is_some() == (1 <= self.n_dims))
    }

    // After it.
    #[tactic(auto, unfolding(crate::specs::Places::running_counts))]
    fn running_counts(&self, size: usize) -> bool
        requires { size ≤ 160 }
        ensures { result ≡ running_counts size self.now }
    {
        (1 <= self.n_dims)
            && self.first.is_some()
            && (self.n == size)
            && (self.n_trials <= size + 64)
            && (self.idle <= self.closed)
    }

    // The set-up and the counts; `n_continuous` of the dimensions are continuous.
    #[tactic(auto, using(crate::proofs::Sizes::sizes), unfolding(crate::specs::Places::counts_sound))]
    fn counts_sound(&self, n_continuous: usize) -> bool
        requires { n_continuous ≤ 16 }
        ensures { result ≡ counts_sound n_continuous self.now }
    {
        if validate_setup(self.setup).is_err() {
            return false;
        }
        if self.discovered {
            self.running_counts(population_size(self.setup.population_size, n_continuous))
        } else {
            self.discovering_counts()
        }
    }

    // Refusal 0 is for the states that are not. What a sound state has in use has room in its arrays.
    pub fn is_sound(&self) -> bool
        ensures sound { result ≡ sound_state self.now }
        ensures few { OnTrue result (Few self.now) }
    {
        // As its type says; the callee that reads it does not tell.
        prove!(self.closed <= u32::MAX);
        if self.n_dims > DIM_LIMIT || !places_fit(&self.dims, self.n_dims, passes, is_blank_dim) {
            return false;
        }
        let limits = limits_of(self.dims());
        if !self.counts_sound(limits.n) {
            return false;
        }
        let candidates = places_fit(
            &self.candidates,
            self.candidate_count(),
            |c| candidate_fits(c, &limits),
            is_blank_candidate,
        );
        let trials = places_fit(
            &self.trials,
            self.n_trials,
            |t| next_fits(t, self.n_dims),
            is_blank_trial,
        );
        let parents = places_fit(
            &self.parents,
            self.parent_count(),
            |m| member_fits(m, &limits),
            is_blank_member,
        );
        let differ = numbers_differ(self.trials());
        candidates & trials & parents & differ & (self.best == best_slot(self.parents()))
    }
}
