// The archive for callers in C and Rust (include/emkhurtov.h): each function of `exports` under its own name.
// The eleven stand twice, since a crate is a library or a static library and not both (docs/DECISIONS.md). A strategy is a number here,
// since no enum can cross to C.
#![tactic(auto)]

ghost use Rattle.std.specs.Prelude.{◌≡◌, length};
ghost use Rattle.exports.specs.Calls.{new_answer, new_state, sample_answer, sample_state, restore_answer, restore_state};
ghost use Rattle.edge.specs.Look.{look_at};
ghost use Rattle.edge.specs.Held.{held_at};
ghost use Rattle.edge.specs.Internal.{internal_of};
ghost use Rattle.files.specs.File.{save_answer, save_file};
ghost use Rattle.files.specs.Read.{read_answer, read_history};
ghost use Rattle.lists.specs.Sweeps.{sweep_answer, sweep_left};
ghost use Rattle.exports.specs.Ceiling.{ceiling_at};
ghost use Rattle.layout.specs.Marks.{marks};

use edge::answers::{DeAnswer, DeCall};
use edge::flat::{DeDistribution, DeSetup, DeState};
use edge::internal::{DeInternal, DeSetting};
use edge::look::DeLook;
use edge::trial::DeCompletedTrial;
use files::file::DeFile;
use files::read::DeRead;
use layout::marks::DeMarks;
use lists::sweeps::DeCount;

#[unsafe(no_mangle)]
pub extern "C" fn de_new(state: &mut DeState, setup: DeSetup) -> DeAnswer
    ensures { (result ≡ new_answer setup) × (state.new ≡ new_state state.old setup) }
{
    exports::de_new(state, setup)
}

#[unsafe(no_mangle)]
pub extern "C" fn de_sample(
    state: &mut DeState,
    call: DeCall,
    history: &[DeCompletedTrial],
) -> DeAnswer
    ensures { (result ≡ sample_answer state.old call history.now) × (state.new ≡ sample_state state.old call history.now) }
{
    exports::de_sample(state, call, history)
}

#[unsafe(no_mangle)]
pub extern "C" fn de_look(state: &DeState) -> DeLook
    ensures { result ≡ look_at state.now }
{
    exports::de_look(state)
}

#[unsafe(no_mangle)]
pub extern "C" fn de_slot_setting(state: &DeState, slot: u64, dimension: u64) -> DeAnswer
    ensures { result ≡ held_at state.now slot dimension }
{
    exports::de_slot_setting(state, slot, dimension)
}

#[unsafe(no_mangle)]
pub extern "C" fn de_to_internal(distribution: DeDistribution, setting: DeSetting) -> DeInternal
    ensures { result ≡ internal_of distribution setting }
{
    exports::de_to_internal(distribution, setting)
}

#[unsafe(no_mangle)]
pub extern "C" fn de_draw_ceiling(n: u64, n_dims: u64, strategy: u64) -> u64
    ensures { result ≡ ceiling_at n n_dims strategy }
{
    exports::de_draw_ceiling(n, n_dims, strategy)
}

#[unsafe(no_mangle)]
pub extern "C" fn de_save(state: &DeState, file: &mut [u8]) -> DeFile
    ensures { (result ≡ save_answer state.now (length file.old)) × (file.new ≡ save_file state.now file.old) }
{
    exports::de_save(state, file)
}

#[unsafe(no_mangle)]
pub extern "C" fn de_restore(state: &mut DeState, file: &[u8]) -> DeFile
    ensures { (result ≡ restore_answer file.now) × (state.new ≡ restore_state state.old file.now) }
{
    exports::de_restore(state, file)
}

#[unsafe(no_mangle)]
pub extern "C" fn de_read_history(text: &[u8], history: &mut [DeCompletedTrial]) -> DeRead
    ensures { (result ≡ read_answer text.now (length history.old)) × (history.new ≡ read_history text.now history.old) }
{
    exports::de_read_history(text, history)
}

#[unsafe(no_mangle)]
pub extern "C" fn de_sweep(dims: &[DeDistribution], out: &mut [i64]) -> DeCount
    ensures { (result ≡ sweep_answer dims.now (length out.old)) × (out.new ≡ sweep_left dims.now out.old) }
{
    exports::de_sweep(dims, out)
}

#[unsafe(no_mangle)]
pub extern "C" fn de_marks() -> DeMarks
    ensures { result ≡ marks }
{
    exports::de_marks()
}
