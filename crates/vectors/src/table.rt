// The small inputs of the table of refusals (3, 9 and 10 are with the bounds).
use crate::answers::{is_refused, refused};
use crate::calls::{discovered, fresh, refusal};
use crate::given::{float, int, logarithmic, unit_interval};
use crate::show::figure;
use de::Sampled;
use de::build::DESamplerBuilder;
use de::sample::sample_slices;
use distribution::{CategoricalDistribution, Distribution};
use history::TrialState;
use slots::look;
use state::State;
use std::io;

// 1 and 2.
pub fn setups(rt: &impl Print) -> io::Result<()> {
    let high = DESamplerBuilder::new().mutation_factor(2.5).build();
    figure(rt, "F = 2.5 is 1", is_refused(high, 1))?;
    let low = DESamplerBuilder::new().crossover_rate(-0.1).build();
    figure(rt, "CR = -0.1 is 2", is_refused(low, 2))
}

// 4 to 7, each a first call.
pub fn distributions(rt: &impl Print) -> io::Result<()> {
    let state = fresh(4);
    let upside_down = int(3, 2, None);
    let doubles = float(1.0, 10.0, true, None);
    let from_0 = logarithmic(0, 9, None);
    let stepped = logarithmic(1, 9, Some(1));
    let still = int(1, 9, Some(0));
    let empty = Distribution::Categorical(CategoricalDistribution { n_choices: 0 });
    refusal(rt, "Int 3..2 is 4", state, upside_down, 1, 4)?;
    refusal(rt, "Float 1..10, log is 5", state, doubles, 1, 5)?;
    refusal(rt, "Int 0..9, log is 5", state, from_0, 1, 5)?;
    refusal(rt, "Int 1..9, step 1, log is 5", state, stepped, 1, 5)?;
    refusal(rt, "Int 1..9, step 0 is 6", state, still, 1, 6)?;
    refusal(rt, "0 choices is 7", state, empty, 1, 7)
}

// 0, of the sample call and of the look call.
pub fn states(rt: &impl Print) -> io::Result<()> {
    let mut state = discovered(4);
    state.n = 3;
    refusal(
        rt,
        "N = 3 after discovery is 0",
        state,
        unit_interval(),
        3,
        0,
    )?;
    figure(rt, "look at N = 3 is 0", is_refused(look(&state).look, 0))
}

// A call whose history has NaN in this state.
fn with_nan(state: State, how: TrialState) -> Sampled {
    sample_slices(state, unit_interval(), 3, &[7], &[f64::NAN], &[how])
}

// 8, which is for complete entries alone.
pub fn histories(rt: &impl Print) -> io::Result<()> {
    let state = discovered(4);
    figure(
        rt,
        "history (7, NaN) is 8",
        refused(&state, with_nan(state, TrialState::Complete), 8),
    )?;
    figure(
        rt,
        "history (7, NaN) pruned passes",
        with_nan(state, TrialState::Pruned).answer.is_ok(),
    )?;
    figure(
        rt,
        "history (7, NaN) failed passes",
        with_nan(state, TrialState::Failed).answer.is_ok(),
    )
}
