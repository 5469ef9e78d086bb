// History from the metrics export (document 02, W3): text lines, each a trial number, a comma, a value and a line feed.
// Every line is read before anything is written, so that a refusal leaves the lent history as it was.
#![tactic(auto)]

ghost use Rattle.std.specs.Prelude.{min, ◌≡◌, length};
ghost use Rattle.metrics.specs.Export.{export_refusal_number, export_of, answer_of, left_in, entry_of, number_of, value_of};

use entries::Entries;
use history::CompletedTrial;
use line::next_line;

mod cut;
pub mod entries;
mod line;
mod value;

// 14: the first malformed line, with its number from 1. 15: the lent history has fewer places than the export has entries.
#[derive(Clone, Copy)]
pub enum ExportRefusal {
    MalformedLine(usize),
    ShortHistory,
}

impl ExportRefusal {
    // The number that callers know an export's refusal by: document 02's table, case by case, since a variant that carries a line has no `as u64`.
    pub fn number(self) -> u64
        ensures { result ≡ export_refusal_number self }
    {
        match self {
            ExportRefusal::MalformedLine(_) => 14,
            ExportRefusal::ShortHistory => 15,
        }
    }
}

// Every line is read, and nothing written: 14 comes first, then 15 where the entries are more than the lent places.
// Counted by hand. It is not `(&mut entries).count()`, which says nothing of what it leaves in `entries`: tried, and
// `returns-then-not-is_empty` stays open, where what is left tells a malformed line from the end.
#[tactic(auto, using(crate::proofs::Lines::judged))]
pub fn judge(text: &[u8], places: usize) -> Result<usize, ExportRefusal>
    ensures { result ≡ answer_of places (export_of text.now) }
{
    let mut left = text;
    let mut n: usize = 0;
    while let Some((_, rest)) = next_line(left) {
        left = rest;
        n += 1;
    }
    if !left.is_empty() {
        Err(ExportRefusal::MalformedLine(n + 1))
    } else if n > places {
        Err(ExportRefusal::ShortHistory)
    } else {
        Ok(n)
    }
}

// The export read into two plain slices, a number and a value for each entry: how many entries there are.
// Places go by `enumerate`. It is not `iter_mut().zip(Entries(text))`: tried in `read_history`, and `returns` stays open, since what is
// in a place that the iterator lent has no name there that a proof may cite.
#[tactic(auto, using(crate::proofs::Writes::writes))]
pub fn read_history_slices(
    text: &[u8],
    numbers: &mut [u64],
    values: &mut [f64],
) -> Result<usize, ExportRefusal>
    ensures answer { let places = min (length numbers.old) (length values.old) in
        result ≡ answer_of places (export_of text.now) }
    ensures numbers { let places = min (length numbers.old) (length values.old) in
        numbers.new ≡ left_in number_of places (export_of text.now) numbers.old }
    ensures values { let places = min (length numbers.old) (length values.old) in
        values.new ≡ left_in value_of places (export_of text.now) values.old }
{
    let count = judge(text, numbers.len().min(values.len()))?;
    for (i, entry) in Entries(text).enumerate() {
        numbers[i] = entry.number;
        values[i] = entry.value;
    }
    Ok(count)
}

// The export read into a lent history: how many entries there are. For callers in Rattle; C's entries are read by `files`.
// The loop of the other form again: one loop for both would hand each entry to an `FnMut` that writes to one slice here and to two there, and the
// law of what that closure has written would be longer than the loop.
#[tactic(auto, using(crate::proofs::Writes::writes))]
pub fn read_history(text: &[u8], history: &mut [CompletedTrial]) -> Result<usize, ExportRefusal>
    ensures { let places = length history.old in
        (result ≡ answer_of places (export_of text.now))
        × (history.new ≡ left_in entry_of places (export_of text.now) history.old) }
{
    let count = judge(text, history.len())?;
    for (i, entry) in Entries(text).enumerate() {
        history[i] = entry;
    }
    Ok(count)
}
