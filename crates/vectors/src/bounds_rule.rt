// A first closing with N = 4 and F = 2 under either bounds rule: the entries of the candidates that it makes.
use crate::calls::{one_more, trials};
use crate::closings::close;
use crate::show::figure;
use de::build::{DESamplerBuilder, new_state};
use evolution::BoundsRule;
use state::State;
use std::io;

// The state after a closing under this rule; its parents are those of any rule.
fn closed_by(rule: BoundsRule) -> State {
    let b = DESamplerBuilder::new()
        .population_size(4)
        .seed(7)
        .mutation_factor(2.0)
        .bounds_rule(rule);
    let first = one_more(new_state(b.setup), 1);
    let open = trials(first, 2, 6);
    close(open, [2, 3, 4, 5], [2.0, 1.0, 1.0, 3.0], 6)
}

// The four candidates have these entries.
fn has(state: &State, entries: &[f64; 4]) -> bool {
    state
        .candidates
        .iter()
        .zip(entries)
        .all(|(candidate, entry)| candidate.x[0] == *entry)
}

// Of the mutants' entries the first is above 1, the second and the fourth below 0; the third is within the bounds.
pub fn bounds_rules(rt: &impl Print) -> io::Result<()> {
    let clamp = closed_by(BoundsRule::Clamp);
    let midpoint = closed_by(BoundsRule::Midpoint);
    figure(
        rt,
        "under clamp three of four entries become a bound",
        has(&clamp, &[1.0, 0.0, 0.029453479640258906, 0.0]),
    )?;
    figure(
        rt,
        "under midpoint each is halfway from its parent's to the bound",
        has(
            &midpoint,
            &[
                0.5083941472640781,
                0.4503803403034417,
                0.029453479640258906,
                0.22622094750573418,
            ],
        ),
    )?;
    figure(
        rt,
        "under either rule the generator goes on from the same word",
        clamp.word == midpoint.word,
    )
}
