// The sampler for callers in C and Rust, whom `exports_c` gives it under the same names. The structs that cross are those of `edge`, `files` and
// `lists`. A call, an entry of its history, a set-up or a dimension to sweep with a number that names no case answers kind 4; a state with one is
// not sound, and that is refusal 0, or 13 where it is to be saved.
#![tactic(auto)]

ghost use Rattle.std.specs.Prelude.{◌≡◌, length, map};
ghost use Rattle.de.specs.Answer.{numbered};
ghost use Rattle.de.specs.Sample.{sample_of};
ghost use Rattle.edge.specs.Trial.{trial_of};
ghost use Rattle.exports.specs.Calls.{new_answer, new_state, unjudged_sample, unjudged_state, sample_answer, sample_state, restore_answer, restore_state};
ghost use Rattle.edge.specs.Look.{look_at};
ghost use Rattle.edge.specs.Held.{held_at};
ghost use Rattle.edge.specs.Internal.{internal_of};
ghost use Rattle.files.specs.File.{save_answer, save_file};
ghost use Rattle.files.specs.Read.{read_answer, read_history};
ghost use Rattle.lists.specs.Sweeps.{sweep_answer, sweep_left};
ghost use Rattle.exports.specs.Ceiling.{ceiling_at};
ghost use Rattle.layout.specs.Marks.{marks};

use de::Sampled;
use de::ceiling::draw_ceiling;
use de::sample::sample_over;
use distribution::Distribution;
use edge::answers::{DeAnswer, DeCall, open_call, settle};
use edge::build::{fresh, settle_setup};
use edge::flat::{DeDistribution, DeSetup, DeState, Unnamed, open, strategy_in};
use edge::flatten::flatten;
use edge::held::held_at;
use edge::internal::{DeInternal, DeSetting, internal_of};
use edge::look::{DeLook, look_at};
use edge::trial::{DeCompletedTrial, all_known};
use files::file::{DeFile, save_at};
use files::read::{DeRead, read_into};
use layout::marks::{DeMarks, marked};
use lists::sweeps::{DeCount, sweep_at};
use saved::read;
use state::State;

// A state from a set-up. What is lent is written only where the set-up is accepted, and never read.
#[tactic(auto, unfolding(crate::specs::Calls::new_answer, crate::specs::Calls::new_state))]
pub fn de_new(state: &mut DeState, setup: DeSetup) -> DeAnswer
    ensures { (result ≡ new_answer setup) × (state.new ≡ new_state state.old setup) }
{
    match settle_setup(setup) {
        Ok(setup) => {
            *state = fresh(setup);
            DeAnswer::made()
        }
        Err(answer) => answer,
    }
}

// The sampler's call over C's entries, each opened as it is read (`sample` of de, over entries in numbers).
fn sample(
    mut state: State,
    distribution: Distribution,
    trial: u64,
    history: &[DeCompletedTrial],
) -> Sampled
    ensures { numbered result ≡ sample_of state distribution trial (map trial_of history.now) }
{
    let entries = history.iter().map(|entry| entry.open());
    let (answer, draws) = sample_over(&mut state, distribution, trial, entries);
    Sampled {
        answer,
        state,
        draws,
    }
}

// What a sample call answers before the entries of its history are judged: `Ok` with a setting, and only then is the lent state written.
#[tactic(auto, unfolding(edge::specs::Answers::question_of, edge::specs::Answers::settled_of))]
fn sampled(
    state: &mut DeState,
    call: DeCall,
    history: &[DeCompletedTrial],
) -> Result<DeAnswer, DeAnswer>
    ensures answer { result ≡ unjudged_sample state.old call history.now }
    ensures after { state.new ≡ unjudged_state state.old call history.now }
{
    let (opened, distribution) = open_call(state, call)?;
    let made = sample(open(state, opened), distribution, call.trial, history);
    let answer = settle(made.answer, made.draws)?;
    *state = flatten(made.state);
    Ok(answer)
}

// A sample call. The lent state is written only where there is a setting. An unknown entry never leads to one, since it opens to a NaN that
// the sampler refuses. So the entries are judged only where there is none, and a call with a setting reads a long history once.
pub fn de_sample(state: &mut DeState, call: DeCall, history: &[DeCompletedTrial]) -> DeAnswer
    ensures { (result ≡ sample_answer state.old call history.now) × (state.new ≡ sample_state state.old call history.now) }
{
    match sampled(state, call, history) {
        Ok(answer) => answer,
        Err(answer) => {
            if all_known(history) {
                answer
            } else {
                DeAnswer::from(Unnamed)
            }
        }
    }
}

pub fn de_look(state: &DeState) -> DeLook
    ensures { result ≡ look_at state.now }
{
    look_at(state)
}

// The setting that a slot holds in a dimension.
pub fn de_slot_setting(state: &DeState, slot: u64, dimension: u64) -> DeAnswer
    ensures { result ≡ held_at state.now slot dimension }
{
    held_at(state, slot, dimension)
}

pub fn de_to_internal(distribution: DeDistribution, setting: DeSetting) -> DeInternal
    ensures { result ≡ internal_of distribution setting }
{
    internal_of(distribution, setting)
}

// What a sample call draws at most that leaves n, n_dims and the set-up's strategy in the state. The strategy is a number, since no
// enum can cross to C; no state that is sound has another than the three, and there it is 0.
#[tactic(auto, unfolding(crate::specs::Ceiling::ceiling_at))]
pub fn de_draw_ceiling(n: u64, n_dims: u64, strategy: u64) -> u64
    ensures { result ≡ ceiling_at n n_dims strategy }
{
    match strategy_in(strategy) {
        Ok(strategy) => draw_ceiling(n, n_dims, strategy),
        Err(_) => 0,
    }
}

// The state as a saved file (docs/SAVED.md). A refusal leaves the lent file as it was.
pub fn de_save(state: &DeState, file: &mut [u8]) -> DeFile
    ensures { (result ≡ save_answer state.now (length file.old)) × (file.new ≡ save_file state.now file.old) }
{
    save_at(state, file)
}

// The state of a saved file. What is lent is written only where the file is taken, and never read.
#[tactic(auto, unfolding(crate::specs::Calls::restore_answer, crate::specs::Calls::restore_state))]
pub fn de_restore(state: &mut DeState, file: &[u8]) -> DeFile
    ensures { (result ≡ restore_answer file.now) × (state.new ≡ restore_state state.old file.now) }
{
    match read(file) {
        Ok(kept) => {
            *state = flatten(kept);
            DeFile::restored()
        }
        Err(why) => DeFile::from(why),
    }
}

// The entries of a metrics export, into the lent history. A refusal leaves it as it was.
pub fn de_read_history(text: &[u8], history: &mut [DeCompletedTrial]) -> DeRead
    ensures { (result ≡ read_answer text.now (length history.old)) × (history.new ≡ read_history text.now history.old) }
{
    DeRead::from(read_into(text, history))
}

// Every combination of some dimensions' values and choices, into lent memory, which is as it was unless they are listed.
pub fn de_sweep(dims: &[DeDistribution], out: &mut [i64]) -> DeCount
    ensures { (result ≡ sweep_answer dims.now (length out.old)) × (out.new ≡ sweep_left dims.now out.old) }
{
    sweep_at(dims, out)
}

// The layout that the library has.
pub fn de_marks() -> DeMarks
    ensures { result ≡ marks }
{
    marked()
}
