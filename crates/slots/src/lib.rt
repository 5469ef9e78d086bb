// What the slots hold: the look call, and the settings of a slot.
#![tactic(auto)]

ghost use Rattle.std.specs.Prelude.{◌≡◌, ◌≤◌, length};
ghost use Rattle.rng_util.specs.Many.{pad_to};
ghost use Rattle.common.specs.Bounds.{zero_f};
ghost use Rattle.selection.specs.Best.{values};
ghost use Rattle.slots.specs.Look.{bare, look_of, look_refusal, unsound_refusal};
ghost use Rattle.slots.specs.Held.{held_of, held_refusal};

use assignment::decode_at;
use distribution::{DimIdx, ParamValue, Refusal};
use evolution::Member;
use state::State;

// The first n values are those of the slots. Where `look` has no slot the others are 0, as C's `DeLook` is promised them: with the values
// in an option of their own, the edge and two programs would say the zeros.
#[derive(Clone, Copy)]
pub struct Looked {
    pub look: Result<Option<usize>, Refusal>,
    pub n: usize,
    pub values: [f64; 160],
    pub closed: u32,
    pub idle: u32,
}

// An answer without values.
fn bare_look(look: Result<Option<usize>, Refusal>) -> Looked
    ensures { result ≡ bare look }
{
    Looked {
        look,
        n: 0,
        values: [0.0; 160],
        closed: 0,
        idle: 0,
    }
}

// The slots' values, in slot order. Three lines here and three in state's `choice_limits`: one function for both would say
// four clauses of its closure, as `read_rows` of opened does.
#[tactic(auto, using(crate::proofs::Looking::turns))]
fn slot_values(parents: &[Member]) -> [f64; 160]
    requires { length parents.now ≤ 160 }
    ensures { result ≡ pad_to 160 zero_f (values parents.now) }
{
    let mut values = [0.0; 160];
    for (i, parent) in parents.iter().enumerate() {
        values[i] = parent.value;
    }
    values
}

// Best slot and values, or nothing before the first closing; closed and idle generations.
#[tactic(auto, using(crate::proofs::Numbers::refusals, crate::proofs::Looking::looks))]
pub fn look(state: &State) -> Looked
    ensures { (result ≡ look_of state.now) × (look_refusal result.look ≡ unsound_refusal state.now) }
{
    if !state.is_sound() {
        return bare_look(Err(Refusal::StateNotSound));
    }
    if state.closed == 0 {
        return bare_look(Ok(None));
    }
    let parents = state.parents();
    Looked {
        look: Ok(Some(state.best)),
        n: parents.len(),
        values: slot_values(parents),
        closed: state.closed,
        idle: state.idle,
    }
}

// The setting that a slot holds in a dimension, as a trial with its candidate is handed it.
#[tactic(auto, using(crate::proofs::Numbers::refusals, crate::proofs::Holding::ways))]
pub fn slot_setting(
    state: &State,
    slot: usize,
    dimension: usize,
) -> Result<Option<ParamValue>, Refusal>
    ensures { (result ≡ held_of state.now slot dimension) × (held_refusal result ≡ unsound_refusal state.now) }
{
    if !state.is_sound() {
        return Err(Refusal::StateNotSound);
    }
    let dims = state.dims();
    let Some(parent) = state.parents().get(slot) else {
        return Ok(None);
    };
    if dims.len() <= dimension {
        return Ok(None);
    }
    Ok(Some(decode_at(dims, DimIdx(dimension), &parent.candidate)))
}
