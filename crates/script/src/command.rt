// What a line says.
ghost use Rattle.std.specs.Prelude.{◌≡◌, map};
ghost use Rattle.script.specs.Words.{words_of};
ghost use Rattle.script.specs.Commands.{set_up, told, put_line};
ghost use Rattle.script.specs.Commands.{sample_float, sample_int, range_line, sextuple_line, choice_line, line_of, command_of};

use crate::fields::{bounds_rule, optional, scale, state, strategy};
use crate::hex::is_hex;
use distribution::{CategoricalDistribution, Distribution, FloatDistribution, IntDistribution};
use evolution::{BoundsRule, Setup};
use history::{CompletedTrial, TrialState};
use numbers::{read_double, read_int, read_whole};

#[derive(Clone, Copy)]
pub enum Command {
    // An empty line, or a comment: passed over.
    Skip,
    Clear,
    Tell(CompletedTrial),
    // So many zero bytes.
    File(u64),
    // The place of the first byte; the bytes are in the line (`put_bytes`).
    Put(u64),
    Ask(Question),
}

// What is asked of the sampler or of the kept file, and answered.
#[derive(Clone, Copy)]
pub enum Question {
    New(Setup),
    Sample {
        number: u64,
        distribution: Distribution,
    },
    Look,
    State,
    Save,
    Restore,
    Bytes,
}

// `new F CR STRATEGY SIZE SEED`, its keyword seen, with or without its RULE, which is read already.
#[tactic(auto, unfolding(crate::specs::Commands::set_up))]
fn set_up(
    f: &[u8],
    cr: &[u8],
    by: &[u8],
    size: &[u8],
    seed: &[u8],
    bounds_rule: BoundsRule,
) -> Option<Command>
    ensures { result ≡ set_up f.now cr.now by.now size.now seed.now bounds_rule }
{
    Some(Command::Ask(Question::New(Setup {
        mutation_factor: read_double(f)?,
        crossover_rate: read_double(cr)?,
        strategy: strategy(by)?,
        population_size: optional(size, read_whole)?,
        seed: read_whole(seed)?,
        bounds_rule,
    })))
}

// `tell TRIAL VALUE`, with or without its STATE, which is read already.
#[tactic(auto, unfolding(crate::specs::Commands::told))]
fn tell(trial: &[u8], value: &[u8], state: TrialState) -> Option<Command>
    ensures { result ≡ told trial.now value.now state }
{
    Some(Command::Tell(CompletedTrial {
        number: read_whole(trial)?,
        value: read_double(value)?,
        state,
    }))
}

// `put OFFSET HEX`, its keyword seen.
#[tactic(auto, unfolding(crate::specs::Commands::put_line))]
fn put(offset: &[u8], hex: &[u8]) -> Option<Command>
    ensures { result ≡ put_line offset.now hex.now }
{
    let at = read_whole(offset)?;
    is_hex(hex).then_some(Command::Put(at))
}

// `sample TRIAL float LOW HIGH SCALE STEP`, its two keywords seen. One function for this and the next, with the words' reader as
// a closure, would be no plainer: it would hand back five values, and each caller would put four of them into its own struct.
#[tactic(auto, unfolding(crate::specs::Commands::sample_float))]
fn sample_float(trial: &[u8], low: &[u8], high: &[u8], log: &[u8], step: &[u8]) -> Option<Command>
    ensures { result ≡ sample_float trial.now low.now high.now log.now step.now }
{
    Some(Command::Ask(Question::Sample {
        number: read_whole(trial)?,
        distribution: Distribution::Float(FloatDistribution {
            low: read_double(low)?,
            high: read_double(high)?,
            log_scale: scale(log)?,
            step: optional(step, read_double)?,
        }),
    }))
}

// `sample TRIAL int LOW HIGH SCALE STEP`, its two keywords seen.
#[tactic(auto, unfolding(crate::specs::Commands::sample_int))]
fn sample_int(trial: &[u8], low: &[u8], high: &[u8], log: &[u8], step: &[u8]) -> Option<Command>
    ensures { result ≡ sample_int trial.now low.now high.now log.now step.now }
{
    Some(Command::Ask(Question::Sample {
        number: read_whole(trial)?,
        distribution: Distribution::Int(IntDistribution {
            low: read_int(low)?,
            high: read_int(high)?,
            log_scale: scale(log)?,
            step: optional(step, read_int)?,
        }),
    }))
}

// A `sample` line of seven words. They go on one by one: the pattern in `rule` names them, and a struct of them would be taken apart at once.
#[tactic(auto, unfolding(crate::specs::Commands::range_line))]
fn range(
    key: &[u8],
    trial: &[u8],
    kind: &[u8],
    low: &[u8],
    high: &[u8],
    log: &[u8],
    step: &[u8],
) -> Option<Command>
    ensures { result ≡ range_line key.now trial.now kind.now low.now high.now log.now step.now }
{
    if key != b"sample".as_slice() {
        return None;
    }
    match kind {
        b"float" => sample_float(trial, low, high, log, step),
        b"int" => sample_int(trial, low, high, log, step),
        _ => None,
    }
}

// A line of seven words: `new F CR STRATEGY SIZE SEED RULE`, or a `sample` line.
#[tactic(auto, unfolding(crate::specs::Commands::sextuple_line))]
fn sextuple(
    key: &[u8],
    a: &[u8],
    b: &[u8],
    c: &[u8],
    d: &[u8],
    e: &[u8],
    f: &[u8],
) -> Option<Command>
    ensures { result ≡ sextuple_line key.now a.now b.now c.now d.now e.now f.now }
{
    match key {
        b"new" => set_up(a, b, c, d, e, bounds_rule(f)?),
        _ => range(key, a, b, c, d, e, f),
    }
}

// `sample TRIAL choice COUNT`.
#[tactic(auto, unfolding(crate::specs::Commands::choice_line))]
fn choice(key: &[u8], trial: &[u8], kind: &[u8], count: &[u8]) -> Option<Command>
    ensures { result ≡ choice_line key.now trial.now kind.now count.now }
{
    if key != b"sample".as_slice() || kind != b"choice".as_slice() {
        return None;
    }
    Some(Command::Ask(Question::Sample {
        number: read_whole(trial)?,
        distribution: Distribution::Categorical(CategoricalDistribution {
            n_choices: read_whole(count)?,
        }),
    }))
}

// The rule that the words of a line meet. The keywords of the rules of four and of seven words are tested by a guard or by their functions:
// tried as patterns here, and `returns-in-sample` stays open, and `returns-in-len4` for the second `tell`.
#[tactic(auto, unfolding(crate::specs::Commands::line_of, crate::specs::Commands::bare_line, crate::specs::Commands::file_line, crate::specs::Commands::pair_line, crate::specs::Commands::triple_line))]
fn rule(words: &[&[u8]]) -> Option<Command>
    ensures { result ≡ line_of (map (λ w. w.now) words.now) }
{
    match *words {
        [b"clear"] => Some(Command::Clear),
        [b"look"] => Some(Command::Ask(Question::Look)),
        [b"state"] => Some(Command::Ask(Question::State)),
        [b"save"] => Some(Command::Ask(Question::Save)),
        [b"restore"] => Some(Command::Ask(Question::Restore)),
        [b"bytes"] => Some(Command::Ask(Question::Bytes)),
        [b"file", length] => read_whole(length).map(Command::File),
        [b"tell", trial, value] => tell(trial, value, TrialState::Complete),
        [b"put", offset, hex] => put(offset, hex),
        [key, trial, value, word] if key == b"tell".as_slice() => tell(trial, value, state(word)?),
        [key, trial, kind, count] => choice(key, trial, kind, count),
        [b"new", f, cr, by, size, seed] => set_up(f, cr, by, size, seed, BoundsRule::Clamp),
        [key, a, b, c, d, e, f] => sextuple(key, a, b, c, d, e, f),
        _ => None,
    }
}

// The rule that a line meets. One pass takes its words, since each look-up by `word` goes over the line from its start. Out of line, so that a reader's
// loop over bytes, into which its caller is built, stays small.
#[inline(never)]
fn ruled(line: &[u8]) -> Option<Command>
    ensures { result ≡ line_of (words_of line.now) }
{
    let mut words: [&[u8]; 7] = [&[]; 7];
    let mut n = 0;
    for word in line.split(|b| *b == b' ') {
        if n == words.len() {
            return None;
        }
        words[n] = word;
        n += 1;
    }
    rule(&words[..n])
}

// What a line says, its line feed left out; none where it breaks the rules.
pub fn parse(line: &[u8]) -> Option<Command>
    ensures { result ≡ command_of line.now }
{
    if line.is_empty() || line[0] == b'#' {
        return Some(Command::Skip);
    }
    ruled(line)
}
