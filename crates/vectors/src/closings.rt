// Closings with N = 4, seen by the look call: best slot, values, closed and idle generations.
use crate::calls::{discovered, trials};
use crate::given::unit_interval;
use crate::show::figure;
use de::sample::sample_slices;
use history::TrialState;
use slots::look;
use state::State;
use std::io;

// The trials of these numbers have the slots and these results, all complete; trial `next` closes the generation.
pub fn close(state: State, numbers: [u64; 4], results: [f64; 4], next: u64) -> State {
    let states = [TrialState::Complete; 4];
    sample_slices(state, unit_interval(), next, &numbers, &results, &states).state
}

// The look call gives four values, these, and this best slot and these counts.
fn seen(state: &State, values: &[f64; 4], best: usize, closed: u32, idle: u32) -> bool {
    let l = look(state);
    l.look == Ok(Some(best))
        && l.n == 4
        && l.values[..4] == values[..]
        && l.closed == closed
        && l.idle == idle
}

fn nothing(state: &State) -> bool {
    look(state).look == Ok(None)
}

// Results of +infinity: no slot's value is below it, and slot 0 is best.
fn all_infinite(rt: &impl Print, open: State) -> io::Result<()> {
    let infinite = [f64::INFINITY; 4];
    let far = close(open, [2, 3, 4, 5], infinite, 6);
    figure(rt, "four +infinity: best 0", seen(&far, &infinite, 0, 1, 0))
}

// A smaller value that stays above the least, then a smaller least.
fn fourth_and_fifth(rt: &impl Print, open: State) -> io::Result<()> {
    let above = close(open, [14, 15, 16, 17], [1.5f64, 3.0, 3.0, 3.0], 18);
    figure(
        rt,
        "slot 0 becomes 1.5, above the least: four closed, three idle",
        seen(&above, &[1.5f64, 1.0, 1.0, 3.0], 1, 4, 3),
    )?;
    let below = close(
        trials(above, 19, 22),
        [18, 19, 20, 21],
        [0.5f64, 3.0, 3.0, 3.0],
        22,
    );
    figure(
        rt,
        "slot 0 becomes 0.5, the least: five closed, none idle",
        seen(&below, &[0.5f64, 1.0, 1.0, 3.0], 0, 5, 0),
    )
}

// Trial 2 ended discovery, so trials 2 to 5 have the slots of the first generation.
pub fn closings(rt: &impl Print) -> io::Result<()> {
    let values = [2.0f64, 1.0, 1.0, 3.0];
    let open = trials(discovered(4), 3, 6);
    figure(rt, "look before a closing: nothing", nothing(&open))?;
    let first = close(open, [2, 3, 4, 5], values, 6);
    figure(
        rt,
        "values 2, 1, 1, 3: best 1, one closed, none idle",
        seen(&first, &values, 1, 1, 0),
    )?;
    let second = close(trials(first, 7, 10), [6, 7, 8, 9], [3.0, 3.5, 1.5, 3.5], 10);
    figure(
        rt,
        "larger results: the same values, two closed, one idle",
        seen(&second, &values, 1, 2, 1),
    )?;
    let third = close(trials(second, 11, 14), [10, 11, 12, 13], values, 14);
    figure(
        rt,
        "equal results: the same values, three closed, two idle",
        seen(&third, &values, 1, 3, 2),
    )?;
    fourth_and_fifth(rt, trials(third, 15, 18))?;
    all_infinite(rt, open)
}
