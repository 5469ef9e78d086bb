// What a sample call is asked and what it answers, in numbers. Fields that a kind does not use are 0.
ghost use Rattle.std.specs.Prelude.{◌≡◌};
ghost use Rattle.distribution.specs.Refusals.{refusal_number};
ghost use Rattle.de.specs.Answer.{plain_answer};
ghost use Rattle.edge.specs.Answers.{bare_answer, setting_answer, answered, question_of};

use crate::flat::{DeDistribution, DeState, Opened, Unnamed};
use distribution::{Distribution, ParamValue, Refusal};

#[repr(C)]
#[derive(Clone, Copy)]
pub struct DeCall {
    pub trial: u64,
    pub distribution: DeDistribution,
}

// kind: 0 refused, with document 01's number; 1 float, 2 int, 3 choice; 4 a number of the call, of its history or of the set-up names
// no case; 5 a state is made; 6 there is no such slot or dimension. Kind and refusal are numbers, since no enum can cross to C.
#[repr(C)]
#[derive(Clone, Copy)]
pub struct DeAnswer {
    pub kind: u64,
    pub refusal: u64,
    pub real: f64,
    pub whole: i64,
    pub choice: u64,
    pub draws: u64,
}

impl DeAnswer {
    // Every field is 0. A struct of C's is spelt out field by field once.
    fn none() -> Self
        ensures { result ≡ bare_answer 0 0 }
    {
        DeAnswer {
            kind: 0,
            refusal: 0,
            real: 0.0,
            whole: 0,
            choice: 0,
            draws: 0,
        }
    }

    // A state is made.
    pub fn made() -> Self
        ensures { result ≡ bare_answer 5 0 }
    {
        DeAnswer {
            kind: 5,
            ..DeAnswer::none()
        }
    }

    // There is no such slot or dimension.
    pub fn absent() -> Self
        ensures { result ≡ bare_answer 6 0 }
    {
        DeAnswer {
            kind: 6,
            ..DeAnswer::none()
        }
    }
}

impl From<Unnamed> for DeAnswer {
    ghost from_gives = { λ _ answer. answer ≡ bare_answer 4 0 };

    fn from(_: Unnamed) -> Self {
        DeAnswer {
            kind: 4,
            ..DeAnswer::none()
        }
    }
}

impl From<Refusal> for DeAnswer {
    ghost from_gives = { λ why answer. answer ≡ bare_answer 0 (refusal_number why) };

    fn from(why: Refusal) -> Self {
        DeAnswer {
            refusal: why.number(),
            ..DeAnswer::none()
        }
    }
}

pub fn setting_answer(setting: ParamValue, draws: u64) -> DeAnswer
    ensures { result ≡ setting_answer setting draws }
{
    let none = DeAnswer {
        draws,
        ..DeAnswer::none()
    };
    match setting {
        ParamValue::Float(real) => DeAnswer {
            kind: 1,
            real,
            ..none
        },
        ParamValue::Int(whole) => DeAnswer {
            kind: 2,
            whole,
            ..none
        },
        ParamValue::Categorical(choice) => DeAnswer {
            kind: 3,
            choice,
            ..none
        },
    }
}

// What the sampler is asked. The call is judged before the state.
#[tactic(auto, unfolding(crate::specs::Answers::question_of, crate::specs::Known::opened_in))]
pub fn open_call(s: &DeState, call: DeCall) -> Result<(Opened, Distribution), DeAnswer>
    ensures { result ≡ question_of s.now call }
{
    let distribution = Distribution::try_from(call.distribution)?;
    let opened = Opened::try_from(s)?;
    Ok((opened, distribution))
}

// The answer that goes out: `Ok` where the state after it is to be stored, which only a setting is.
pub fn settle(answer: Result<ParamValue, Refusal>, draws: u64) -> Result<DeAnswer, DeAnswer>
    ensures { result ≡ answered (plain_answer answer) draws }
{
    Ok(setting_answer(answer?, draws))
}
