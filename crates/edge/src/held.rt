// What a slot holds in a dimension.
ghost use Rattle.std.specs.Prelude.{◌≡◌};
ghost use Rattle.edge.specs.Held.{held_in, held_at};

use crate::answers::{DeAnswer, setting_answer};
use crate::flat::{DeState, Opened, open};
use distribution::{ParamValue, Refusal};
use slots::slot_setting;

#[tactic(auto, unfolding(crate::specs::Known::opened_in, crate::specs::Known::opened_state))]
fn held_in(s: &DeState, slot: u64, dimension: u64) -> Result<Option<ParamValue>, Refusal>
    ensures { result ≡ held_in s.now slot dimension }
{
    let opened = Opened::try_from(s)?;
    let state = open(s, opened);
    slot_setting(&state, slot as usize, dimension as usize)
}

#[tactic(auto, unfolding(crate::specs::Held::held_at))]
pub fn held_at(s: &DeState, slot: u64, dimension: u64) -> DeAnswer
    ensures { result ≡ held_at s.now slot dimension }
{
    match held_in(s, slot, dimension) {
        Err(why) => DeAnswer::from(why),
        Ok(None) => DeAnswer::absent(),
        Ok(Some(x)) => setting_answer(x, 0),
    }
}
