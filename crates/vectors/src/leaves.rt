// The published SplitMix64 outputs, and the bench figures of the generator, rounding, mapping and history.
use crate::given::{float, int, logarithmic};
use crate::show::figure;
use distribution::ParamValue;
use history::TrialState;
use rng_util::Gen;
use std::io;

// The published outputs of seed 1234567, a line each. The draws are spelt out: a loop would want an invariant of
// how many were made.
#[tactic(auto, unfolding(rng_util::specs::Gen::draw_of))]
pub fn published(rt: &impl Print) -> io::Result<()> {
    let mut rng = Gen::new(1234567);
    let outputs = [rng.draw(), rng.draw(), rng.draw(), rng.draw(), rng.draw()];
    for n in outputs {
        println!(rt; "{n}")?;
    }
    Ok(())
}

pub fn units(rt: &impl Print) -> io::Result<()> {
    figure(rt, "unit of 0", rng_util::unit(0) == 0.0)?;
    figure(
        rt,
        "unit of 2^64 - 1",
        rng_util::unit(18446744073709551615) == 0.9999999999999999,
    )?;
    figure(rt, "usize(0..5) of 13", rng_util::usize_below(13, 5) == 3)?;
    figure(
        rt,
        "range 1..1 + 2^-52",
        rng_util::f64_range(1.0, 1.0000000000000002, 0.75) == 1.0000000000000002,
    )
}

pub fn rounds(rt: &impl Print) -> io::Result<()> {
    figure(rt, "round -2.5", rounding::round(-2.5) == -3.0)?;
    figure(rt, "round 2.5", rounding::round(2.5) == 3.0)?;
    figure(
        rt,
        "round 0.49999999999999994",
        rounding::round(0.49999999999999994) == 0.0,
    )
}

pub fn steps(rt: &impl Print) -> io::Result<()> {
    let quarters = float(0.0, 1.0, false, Some(0.25));
    let fours = int(1, 11, Some(4));
    figure(
        rt,
        "Float 0..1 step 0.25 of 0.625",
        matches!(common::from_internal(0.625, quarters), ParamValue::Float(x) if x == 0.75),
    )?;
    figure(
        rt,
        "Int 1..11 step 4 of 11",
        matches!(common::from_internal(11.0, fours), ParamValue::Int(11)),
    )?;
    figure(
        rt,
        "Int 1..11 step 4 of 8",
        matches!(common::from_internal(8.0, fours), ParamValue::Int(9)),
    )
}

// Request W9: R(405) is 2, R(406) is 3, R(594) is 4, R(595) is 5, and a high of 60 is R of its position.
pub fn ladders(rt: &impl Print) -> io::Result<()> {
    let wide = logarithmic(1, 64, None);
    let narrow = logarithmic(5, 60, None);
    figure(
        rt,
        "Int 1..64, log of 405.49",
        matches!(common::from_internal(405.49, wide), ParamValue::Int(2)),
    )?;
    figure(
        rt,
        "Int 1..64, log of 405.5",
        matches!(common::from_internal(405.5, wide), ParamValue::Int(3)),
    )?;
    figure(
        rt,
        "Int 1..64, log of 594.5",
        matches!(common::from_internal(594.5, wide), ParamValue::Int(5)),
    )?;
    figure(
        rt,
        "Int 5..60, log of 594",
        matches!(common::from_internal(594.0, narrow), ParamValue::Int(5)),
    )?;
    figure(
        rt,
        "Int 5..60, log of 9999",
        matches!(common::from_internal(9999.0, narrow), ParamValue::Int(60)),
    )
}

// What trial 7 has whose entries are 5, complete, and then 2 in this state.
fn result_of_7(last: TrialState) -> Option<f64> {
    let numbers = [7u64; 2];
    let values = [5.0f64, 2.0];
    let states = [TrialState::Complete, last];
    let from = history::Gathered::new();
    let g = history::gather_slices(&numbers, &values, &states, 7, 7, &[7], from);
    g.values[0]
}

pub fn last_entry(rt: &impl Print) -> io::Result<()> {
    figure(
        rt,
        "history (7, 5), (7, 2)",
        result_of_7(TrialState::Complete) == Some(2.0),
    )?;
    figure(
        rt,
        "history (7, 5), (7, 2) pruned: +infinity",
        result_of_7(TrialState::Pruned) == Some(f64::INFINITY),
    )?;
    figure(
        rt,
        "history (7, 5), (7, 2) failed: +infinity",
        result_of_7(TrialState::Failed) == Some(f64::INFINITY),
    )
}
