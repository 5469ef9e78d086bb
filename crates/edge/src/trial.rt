// The entries of a history in numbers, as C lends them.
ghost use Rattle.std.specs.Prelude.{◌≡◌};
ghost use Rattle.edge.specs.Trial.{known_trial, known_history, trial_of, flat_trial};

use history::{CompletedTrial, TrialState};

// state: 0 complete, 1 pruned, 2 failed.
#[repr(C)]
#[derive(Clone, Copy)]
pub struct DeCompletedTrial {
    pub number: u64,
    pub value: f64,
    pub state: u64,
}

impl DeCompletedTrial {
    // Whether the state's number names one.
    fn is_known(&self) -> bool
        ensures { result ≡ known_trial self.now }
    {
        TrialState::from_number(self.state).is_some()
    }

    // The entry that it stands for. One whose number names no state stands for none, and opens to a NaN that is refused: no call is given a
    // setting by it.
    pub fn open(&self) -> CompletedTrial
        ensures { result ≡ trial_of self.now }
    {
        match TrialState::from_number(self.state) {
            Some(state) => CompletedTrial {
                number: self.number,
                value: self.value,
                state,
            },
            None => CompletedTrial {
                number: self.number,
                value: f64::NAN,
                state: TrialState::Complete,
            },
        }
    }
}

impl From<CompletedTrial> for DeCompletedTrial {
    ghost from_gives = { λ entry flat. flat ≡ flat_trial entry };

    fn from(entry: CompletedTrial) -> Self {
        DeCompletedTrial {
            number: entry.number,
            value: entry.value,
            state: entry.state.number(),
        }
    }
}

// Whether every entry's number names a state, also of an entry that the call has no use for.
pub fn all_known(history: &[DeCompletedTrial]) -> bool
    ensures { result ≡ known_history history.now }
{
    history.iter().all(|entry| entry.is_known())
}
