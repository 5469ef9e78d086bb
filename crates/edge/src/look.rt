// The look call.
ghost use Rattle.std.specs.Prelude.{◌≡◌};
ghost use Rattle.edge.specs.Look.{looked, refused_look, look_at};

use crate::flat::{DeState, Opened, open};
use distribution::Refusal;
use slots::{Looked, look};

// No enum crosses to C, nor a list. kind: 0 refused, with document 01's number; 1 nothing yet; 2 best is the best slot, and the first n
// values are the slots'.
#[repr(C)]
#[derive(Clone, Copy)]
pub struct DeLook {
    pub kind: u64,
    pub refusal: u64,
    pub best: usize,
    pub n: usize,
    pub closed: u64,
    pub idle: u64,
    pub values: [f64; 160],
}

impl From<Refusal> for DeLook {
    ghost from_gives = { λ why shown. shown ≡ refused_look why };

    fn from(why: Refusal) -> Self {
        DeLook {
            kind: 0,
            refusal: why.number(),
            best: 0,
            n: 0,
            closed: 0,
            idle: 0,
            values: [0.0; 160],
        }
    }
}

impl From<Looked> for DeLook {
    ghost from_gives = { λ seen shown. shown ≡ looked seen };

    #[tactic(auto, unfolding(crate::specs::Look::looked))]
    fn from(seen: Looked) -> Self {
        let values = seen.values;
        let (kind, refusal, best) = match seen.look {
            Err(why) => (0, why.number(), 0),
            Ok(None) => (1, 0, 0),
            Ok(Some(best)) => (2, 0, best),
        };
        DeLook {
            kind,
            refusal,
            best,
            n: seen.n,
            closed: u64::from(seen.closed),
            idle: u64::from(seen.idle),
            values,
        }
    }
}

#[tactic(auto, unfolding(crate::specs::Known::opened_in, crate::specs::Known::opened_state, crate::specs::Look::look_at))]
pub fn look_at(s: &DeState) -> DeLook
    ensures { result ≡ look_at s.now }
{
    match Opened::try_from(s) {
        Ok(opened) => {
            let state = open(s, opened);
            DeLook::from(look(&state))
        }
        Err(why) => DeLook::from(why),
    }
}
