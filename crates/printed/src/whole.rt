// The whole state: a line for itself, then one for each parent, candidate and open trial.
// Each function has the parameters of `Display::fmt`: a formatter, and what is written.
ghost use Rattle.std.specs.Prelude.{Some, flat_map, take};
ghost use Rattle.std.specs.Fmt.{WritesOnOk};
ghost use Rattle.state.specs.View.{candidate_count, parent_count};
ghost use Rattle.printed.specs.Whole.{dims_in, choices_text, vector_text, parent_text, candidate_text, trial_text};
ghost use Rattle.printed.specs.Whole.{first_text, phase_text, head_text, state_text};

use crate::rows::{Bits, Digits, put_values};
use candidates::{Candidate, continuous_count};
use distribution::DimensionInfo;
use state::State;
use state::view::first;
use std::fmt::{self, Formatter, Write};

// The choices in dimension order.
fn put_choices<W: Write>(
    f: &mut Formatter<W>,
    dims: &[DimensionInfo],
    choices: &[u16],
) -> fmt::Result
    ensures { WritesOnOk W.write_str_gives f.old result (choices_text dims.now choices.now) f.new }
{
    for (i, (dim, choice)) in dims.iter().zip(choices).enumerate() {
        if !dim.distribution.is_continuous() {
            write!(f, " {i}:{choice}")?;
        }
    }
    Ok(())
}

// The entries, of which each continuous dimension has one, then the choices.
#[tactic(auto, unfolding(crate::specs::Whole::vector_text))]
fn put_vector<W: Write>(
    f: &mut Formatter<W>,
    dims: &[DimensionInfo],
    candidate: &Candidate,
) -> fmt::Result
    ensures { WritesOnOk W.write_str_gives f.old result (vector_text dims.now candidate.now) f.new }
{
    put_values(f, first(&candidate.x, continuous_count(dims)))?;
    put_choices(f, dims, &candidate.choices)
}

fn put_parents<W: Write>(f: &mut Formatter<W>, state: &State) -> fmt::Result
    ensures { let parents = take (parent_count state.now) state.now.parents in
        WritesOnOk W.write_str_gives f.old result (flat_map (parent_text (dims_in state.now)) parents) f.new }
{
    let dims = state.dims();
    for parent in state.parents() {
        let value = Bits(parent.value);
        write!(f, "parent {value}")?;
        put_vector(f, dims, &parent.candidate)?;
        writeln!(f)?;
    }
    Ok(())
}

fn put_candidates<W: Write>(f: &mut Formatter<W>, state: &State) -> fmt::Result
    ensures { let candidates = take (candidate_count state.now) state.now.candidates in
        WritesOnOk W.write_str_gives f.old result (flat_map (candidate_text (dims_in state.now)) candidates) f.new }
{
    let dims = state.dims();
    for candidate in state.candidates() {
        write!(f, "candidate")?;
        put_vector(f, dims, candidate)?;
        writeln!(f)?;
    }
    Ok(())
}

fn put_trials<W: Write>(f: &mut Formatter<W>, state: &State) -> fmt::Result
    ensures { WritesOnOk W.write_str_gives f.old result (flat_map trial_text (take state.now.n_trials state.now.trials)) f.new }
{
    for trial in state.trials() {
        let number = trial.number;
        let next = trial.next_dim;
        writeln!(f, "trial {number} {next}")?;
    }
    Ok(())
}

// The first trial's number; `-` while there is none.
#[derive(Clone, Copy)]
struct FirstTrial(Option<u64>);

impl fmt::Display for FirstTrial {
    ghost output = { λ first. Some (first_text first.0) };

    fn fmt<W: Write>(&self, f: &mut Formatter<W>) -> fmt::Result {
        match self.0 {
            Some(number) => write!(f, "{number}"),
            None => write!(f, "-"),
        }
    }
}

// Whether discovery has ended.
#[derive(Clone, Copy)]
struct Phase(bool);

impl fmt::Display for Phase {
    ghost output = { λ phase. Some (phase_text phase.0) };

    fn fmt<W: Write>(&self, f: &mut Formatter<W>) -> fmt::Result {
        if self.0 {
            write!(f, "state active ")
        } else {
            write!(f, "state discovery ")
        }
    }
}

// `state PHASE FIRST N D BEST WORD`.
#[tactic(auto, unfolding(crate::specs::Whole::head_text))]
fn put_head<W: Write>(f: &mut Formatter<W>, state: &State) -> fmt::Result
    ensures { WritesOnOk W.write_str_gives f.old result (head_text state.now) f.new }
{
    let (phase, first) = (Phase(state.discovered), FirstTrial(state.first));
    let (n, n_dims, best) = (state.n, state.n_dims, state.best);
    let word = Digits::<16>(state.word);
    writeln!(f, "{phase}{first} {n} {n_dims} {best} {word}")
}

#[derive(Clone, Copy)]
pub struct Whole<'a>(pub &'a State);

#[tactic(auto, unfolding(crate::specs::Whole::state_text))]
impl fmt::Display for Whole<'_> {
    ghost output = { λ w. Some (state_text w.0.now) };

    fn fmt<W: Write>(&self, f: &mut Formatter<W>) -> fmt::Result {
        put_head(f, self.0)?;
        put_parents(f, self.0)?;
        put_candidates(f, self.0)?;
        put_trials(f, self.0)
    }
}
