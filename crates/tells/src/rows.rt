// The rows that are written, each appended to a block.
// `writeln!` through printed's `Sink` would be plainer, but `printed` stands on the whole sampler, and this program on none of it. So a
// double's text is defined here again (specs/Text).
ghost use Rattle.std.specs.Prelude.{ℕ, ◌<◌, ◌+◌, ◌-◌, ◌*◌, ◌/◌, ◌≤◌, ◌≡◌, ◌++◌, length, min, take};
ghost use Rattle.tells.specs.Text.{whole_text, pattern_text, tell_text, carried, refused_text, tell_texts};

use filled::Filled;
use metrics::ExportRefusal;

// The rows of so many entries have room in a block, since the longest has 43 bytes.
pub fn room<const N: usize>(block: &Filled<u8, N>) -> usize
    ensures { result ≡ (N - length block.now) / 43 }
{
    block.room() / 43
}

// A whole number in decimal, 20 digits at most.
#[tactic(auto, using(crate::proofs::Widths::widths))]
fn put_whole<const N: usize>(block: &mut Filled<u8, N>, n: u64)
    requires { length block.old + 20 ≤ N }
    ensures few { length block.new ≤ length block.old + 20 }
    ensures text { block.new ≡ block.old ++ whole_text n }
{
    let mut text = [0u8; 20];
    let k = io::decimal(n, &mut text);
    block.extend_from_slice(&text[..k]);
}

// A double as its bit pattern, 16 hexadecimal digits.
#[tactic(auto, using(crate::proofs::Widths::widths))]
fn put_double<const N: usize>(block: &mut Filled<u8, N>, x: f64)
    requires { length block.old + 16 ≤ N }
    ensures few { length block.new ≤ length block.old + 16 }
    ensures text { block.new ≡ block.old ++ pattern_text x }
{
    let mut text = [0u8; 16];
    let k = io::hex(numbers::bits_of(x), 16, &mut text);
    block.extend_from_slice(&text[..k]);
}

// `tell NUMBER PATTERN` and a line feed, 43 bytes at most.
#[tactic(auto, using(crate::proofs::Joined::told))]
pub fn tell_row<const N: usize>(block: &mut Filled<u8, N>, number: u64, value: f64)
    requires { length block.old + 43 ≤ N }
    ensures few { length block.new ≤ length block.old + 43 }
    ensures text { block.new ≡ block.old ++ tell_text number value }
{
    block.extend_from_slice(b"tell ");
    put_whole(block, number);
    block.extend_from_slice(b" ");
    put_double(block, value);
    block.extend_from_slice(b"\n");
}

// A space and the malformed line, where the refusal carries one, 21 bytes at most.
fn put_carried<const N: usize>(row: &mut Filled<u8, N>, why: ExportRefusal)
    requires { length row.old + 21 ≤ N }
    ensures few { length row.new ≤ length row.old + 21 }
    ensures text { row.new ≡ row.old ++ carried why }
{
    if let ExportRefusal::MalformedLine(line) = why {
        row.extend_from_slice(b" ");
        put_whole(row, line as u64);
    }
}

// `refused NUMBER` with what the refusal carries, and a line feed, 32 bytes at most.
#[tactic(auto, using(crate::proofs::Joined::refused))]
pub fn refused_row(why: ExportRefusal) -> Filled<u8, 32>
    ensures { result ≡ refused_text why }
{
    let mut row = Filled::new(0);
    row.extend_from_slice(b"refused ");
    put_whole(&mut row, why.number());
    put_carried(&mut row, why);
    row.extend_from_slice(b"\n");
    row
}

// The rows of the entries, one behind the other from an empty block on, each begun only where the longest has room; answers how many.
#[tactic(auto, using(crate::proofs::Joined::up))]
pub fn fill_up<const N: usize>(block: &mut Filled<u8, N>, numbers: &[u64], values: &[f64]) -> usize
    ensures few { (result ≤ length numbers.now) × (result ≤ length values.now) × (length block.new ≤ 43 * result) }
    ensures begun { (k : ℕ) → k < result → length (tell_texts (take k numbers.now) values.now) + 43 ≤ N }
    ensures most { length block.new + 43 ≤ N → result ≡ min (length numbers.now) (length values.now) }
    ensures text { block.new ≡ tell_texts (take result numbers.now) values.now }
{
    block.clear();
    let mut n: usize = 0;
    for (number, value) in numbers.iter().zip(values) {
        if room(block) == 0 {
            break;
        }
        tell_row(block, *number, *value);
        n += 1;
    }
    n
}

// The rows of the first entries, as many as an empty block has room for if each is the longest, one behind the other.
#[tactic(auto, using(crate::proofs::Joined::behind))]
pub fn fill<const N: usize>(block: &mut Filled<u8, N>, numbers: &[u64], values: &[f64])
    ensures { block.new ≡ tell_texts (take (N / 43) numbers.now) values.now }
{
    block.clear();
    let first = room(block).min(numbers.len());
    fill_up(block, &numbers[..first], values);
}
