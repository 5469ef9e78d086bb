// A state's records, written.
ghost use Rattle.std.specs.Prelude.{◌≡◌, ◌++◌, ◌*◌, ◌≤◌, length, drop};
ghost use Rattle.kinds.specs.Kinds.{Roomy};
ghost use Rattle.saved.specs.File.{pieces_of, file_of};

use kinds::kind::Kind;
use kinds::rows::{DIM_WIDTH, TRIAL_WIDTH};
use kinds::sections::section_of;
use records::laid::{put_section, records_for};
use state::State;

// How many records a state has: six for its set-up and its counts, and those of its four lists.
pub fn record_total(s: &State) -> usize
    requires { Roomy s.now }
    ensures total { result ≡ length (pieces_of s.now) }
    ensures few { result ≤ 2285 }
{
    let dims = s.n_dims;
    let parents = s.parent_count();
    let candidates = s.candidate_count();
    6 + records_for(dims * DIM_WIDTH)
        + records_for(s.n_trials * TRIAL_WIDTH)
        + records_for(parents * (dims + 1))
        + records_for(candidates * dims)
}

// The state's records, `count` of them, kind by kind.
pub fn put_state(file: &mut [u8], count: usize, state: &State)
    requires { Roomy state.now × (count ≡ length (pieces_of state.now)) × (32 * count ≤ length file.old) }
    ensures { file.new ≡ file_of state.now ++ drop (length (file_of state.now)) file.old }
{
    let mut k: usize = 0;
    for kind in Kind::ALL {
        let section = section_of(state, kind);
        let words = section.as_slice();
        put_section(file, count, k, kind.number(), words);
        k += records_for(words.len());
    }
}
