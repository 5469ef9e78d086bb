// Discovery: the 16th dimension passes, the 17th doesn't.
use crate::calls::{call, one_more, refusal};
use crate::given::unit_interval;
use crate::show::figure;
use de::build::{DESamplerBuilder, new_state};
use state::State;
use std::io;

// k calls of trial 1.
fn discover(state: State, k: u64) -> State {
    (0..k).fold(state, |s, _| one_more(s, 1))
}

fn sixteenth(rt: &impl Print, fifteen: State) -> io::Result<()> {
    let s = call(fifteen, unit_interval(), 1);
    figure(
        rt,
        "the 16th dimension passes",
        s.answer.is_ok() && s.draws == 1 && s.state.n_dims == 16,
    )
}

fn seventeenth(rt: &impl Print, sixteen: State) -> io::Result<()> {
    refusal(
        rt,
        "the 17th dimension is 9, and changes nothing",
        sixteen,
        unit_interval(),
        1,
        9,
    )
}

// Another trial ends discovery: unset, 16 continuous dimensions make N = 160.
fn ended(rt: &impl Print, sixteen: State) -> io::Result<()> {
    let s = one_more(sixteen, 2);
    figure(
        rt,
        "size unset, n = 16 is N = 160",
        s.n == 160 && s.n_trials == 1,
    )
}

pub fn dimensions(rt: &impl Print) -> io::Result<()> {
    let b = DESamplerBuilder::new().seed(7);
    let fifteen = discover(new_state(b.setup), 15);
    sixteenth(rt, fifteen)?;
    let sixteen = one_more(fifteen, 1);
    seventeenth(rt, sixteen)?;
    ended(rt, sixteen)
}
