// Extra trials of a generation with N = 4: the 64th passes, the 65th doesn't.
use crate::calls::{call, discovered, one_more, refusal, trials};
use crate::given::unit_interval;
use crate::show::figure;
use state::State;
use std::io;

// A call of trial 69, the 64th extra, passes and leaves 68 trials open.
fn serves_last(state: State) -> bool {
    let s = call(state, unit_interval(), 69);
    s.answer.is_ok() && s.state.n_trials == 68
}

// Trial 2 ended discovery, so trials 2 to 5 have the slots and 6 to 69 are the extras.
pub fn extras(rt: &impl Print) -> io::Result<()> {
    let s = trials(discovered(4), 3, 69);
    figure(
        rt,
        "the 64th extra passes",
        s.n_trials == 67 && serves_last(s),
    )?;
    let full = one_more(s, 69);
    refusal(
        rt,
        "the 65th extra is 10, and changes nothing",
        full,
        unit_interval(),
        70,
        10,
    )?;
    // A trial that has its candidate is served all the same.
    figure(rt, "an open trial passes after it", serves_last(full))
}
