// `to_internal` in numbers.
ghost use Rattle.std.specs.Prelude.{◌≡◌};
ghost use Rattle.edge.specs.Known.{named};
ghost use Rattle.edge.specs.Internal.{setting_of, known_setting, unknown_internal, refused_internal, value_of, internal_of};

use crate::flat::{DeDistribution, Unnamed};
use common::to_internal;
use distribution::{Distribution, ParamValue, Refusal};

// kind: 1 real, 2 whole, 3 choice. A number, since no enum can cross to C.
#[repr(C)]
#[derive(Clone, Copy)]
pub struct DeSetting {
    pub kind: u64,
    pub real: f64,
    pub whole: i64,
    pub choice: u64,
}

// kind: 0 refused, with document 01's number; 1 value; 4 a number names no case. Numbers, since no enum
// can cross to C. Spelt out where it is made: a blank one would save a word or two of three.
#[repr(C)]
#[derive(Clone, Copy)]
pub struct DeInternal {
    pub kind: u64,
    pub refusal: u64,
    pub value: f64,
}

impl TryFrom<DeSetting> for ParamValue {
    type Error = Unnamed;

    ghost try_from_gives = { λ s opened. opened ≡ named (known_setting s) (setting_of s) };

    #[tactic(auto, unfolding(crate::specs::Internal::known_setting, crate::specs::Internal::setting_of))]
    fn try_from(s: DeSetting) -> Result<Self, Unnamed> {
        match s.kind {
            1 => Ok(ParamValue::Float(s.real)),
            2 => Ok(ParamValue::Int(s.whole)),
            3 => Ok(ParamValue::Categorical(s.choice)),
            _ => Err(Unnamed),
        }
    }
}

impl From<Unnamed> for DeInternal {
    ghost from_gives = { λ _ answer. answer ≡ unknown_internal };

    fn from(_: Unnamed) -> Self {
        DeInternal {
            kind: 4,
            refusal: 0,
            value: 0.0,
        }
    }
}

impl From<Refusal> for DeInternal {
    ghost from_gives = { λ why answer. answer ≡ refused_internal why };

    fn from(why: Refusal) -> Self {
        DeInternal {
            kind: 0,
            refusal: why.number(),
            value: 0.0,
        }
    }
}

#[tactic(auto, unfolding(crate::specs::Internal::value_of))]
fn value_of(distribution: DeDistribution, setting: DeSetting) -> Result<f64, DeInternal>
    ensures { result ≡ value_of distribution setting }
{
    let d = Distribution::try_from(distribution)?;
    let x = ParamValue::try_from(setting)?;
    let value = to_internal(x, d)?;
    Ok(value)
}

#[tactic(auto, unfolding(crate::specs::Internal::internal_of))]
pub fn internal_of(distribution: DeDistribution, setting: DeSetting) -> DeInternal
    ensures { result ≡ internal_of distribution setting }
{
    match value_of(distribution, setting) {
        Ok(value) => DeInternal {
            kind: 1,
            refusal: 0,
            value,
        },
        Err(answer) => answer,
    }
}
