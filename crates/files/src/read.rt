// The read call (document 02, W3).
ghost use Rattle.std.specs.Prelude.{◌≡◌, length};
ghost use Rattle.metrics.specs.Export.{export_of, answer_of};
ghost use Rattle.files.specs.Read.{line_in, read_in, read_history};

use edge::trial::DeCompletedTrial;
use metrics::entries::Entries;
use metrics::{ExportRefusal, judge};

// kind: 0 refused, by check 14 with the malformed line's number, or by 15; 1 read, `count` entries. Fields that a kind does
// not use are 0. Kind and refusal are numbers, since no enum can cross to C.
#[repr(C)]
#[derive(Clone, Copy)]
pub struct DeRead {
    pub kind: u64,
    pub refusal: u64,
    pub count: u64,
    pub line: u64,
}

fn line_of(why: ExportRefusal) -> u64
    ensures { result ≡ line_in why }
{
    match why {
        ExportRefusal::MalformedLine(line) => line as u64,
        ExportRefusal::ShortHistory => 0,
    }
}

impl From<Result<usize, ExportRefusal>> for DeRead {
    ghost from_gives = { λ answer read. read ≡ read_in answer };

    fn from(answer: Result<usize, ExportRefusal>) -> Self {
        match answer {
            Ok(n) => DeRead {
                kind: 1,
                refusal: 0,
                count: n as u64,
                line: 0,
            },
            Err(why) => DeRead {
                kind: 0,
                refusal: why.number(),
                count: 0,
                line: line_of(why),
            },
        }
    }
}

// The export read into C's entries: how many there are. The loop of `metrics` again, for entries whose state is a number.
#[tactic(auto, using(metrics::proofs::Writes::writes))]
pub fn read_into(text: &[u8], history: &mut [DeCompletedTrial]) -> Result<usize, ExportRefusal>
    ensures answer { result ≡ answer_of (length history.old) (export_of text.now) }
    ensures after { history.new ≡ read_history text.now history.old }
{
    let count = judge(text, history.len())?;
    for (i, entry) in Entries(text).enumerate() {
        history[i] = DeCompletedTrial::from(entry);
    }
    Ok(count)
}
