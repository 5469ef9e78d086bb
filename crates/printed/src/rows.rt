// The words of the rows, as far as they need no state.
ghost use Rattle.std.specs.Prelude.{◌≡◌, ◌<◌, ◌≤◌, false, flat_map, length, Some};
ghost use Rattle.std.specs.Fmt.{WritesOnOk, digit_glyph};
ghost use Rattle.printed.specs.Rows.{hex_text, pattern_text, setting_text, values_text, row_text, rows_text, best_text};

use distribution::ParamValue;
use numbers::bits_of;
use slots::Looked;
use state::view::first;
use std::fmt::{self, Formatter, Write};
use std::str::from_utf8_unchecked;

// A word, as N hexadecimal digits.
#[derive(Clone, Copy)]
pub struct Digits<const N: usize>(pub u64);

#[tactic(auto, using(crate::proofs::HexDigits::word))]
impl<const N: usize> fmt::Display for Digits<N> {
    ghost output = { λ d. Some (hex_text N d.0) };

    fn fmt<W: Write>(&self, f: &mut Formatter<W>) -> fmt::Result {
        let word = self.0;
        let digits = N;
        if digits == 16 {
            // The library's own form takes several times as long.
            return put_bytes(f, &word.to_be_bytes());
        }
        write!(f, "{word:0digits$x}")
    }
}

// A double, as its bit pattern.
#[derive(Clone, Copy)]
pub struct Bits(pub f64);

#[tactic(auto, unfolding(crate::specs::Rows::pattern_text))]
impl fmt::Display for Bits {
    ghost output = { λ b. Some (pattern_text b.0) };

    fn fmt<W: Write>(&self, f: &mut Formatter<W>) -> fmt::Result {
        let pattern = Digits::<16>(bits_of(self.0));
        write!(f, "{pattern}")
    }
}

// A setting: its kind and its value.
#[derive(Clone, Copy)]
pub struct Setting(pub ParamValue);

#[tactic(auto, unfolding(crate::specs::Rows::setting_text))]
impl fmt::Display for Setting {
    ghost output = { λ s. Some (setting_text s.0) };

    fn fmt<W: Write>(&self, f: &mut Formatter<W>) -> fmt::Result {
        match self.0 {
            ParamValue::Float(x) => {
                let bits = Bits(x);
                write!(f, "float {bits}")
            }
            ParamValue::Int(k) => write!(f, "int {k}"),
            ParamValue::Categorical(index) => write!(f, "choice {index}"),
        }
    }
}

// Doubles, a space in front of each.
pub fn put_values<W: Write>(f: &mut Formatter<W>, values: &[f64]) -> fmt::Result
    ensures { WritesOnOk W.write_str_gives f.old result (values_text values.now) f.new }
{
    for x in values {
        let bits = Bits(*x);
        write!(f, " {bits}")?;
    }
    Ok(())
}

// A digit's letter.
fn letter(digit: u8) -> u8
    requires { digit < 16 }
    ensures ascii { result < 128 }
    ensures value { result ≡ digit_glyph false digit }
{
    if digit < 10 {
        b'0' + digit
    } else {
        b'a' - 10 + digit
    }
}

// Two digits for each byte, all in one write: a write for each takes several times as long. That the digits are text is proved, so std's test of
// it, which would pass over them once more, is left out.
#[tactic(auto, using(crate::proofs::HexDigits::bytes))]
fn put_bytes<W: Write>(f: &mut Formatter<W>, bytes: &[u8]) -> fmt::Result
    requires { length bytes.now ≤ 32 }
    ensures { WritesOnOk W.write_str_gives f.old result (flat_map (hex_text 2) bytes.now) f.new }
{
    let mut text = [0u8; 64];
    for (i, byte) in bytes.iter().enumerate() {
        text[i * 2] = letter(*byte / 16);
        text[i * 2 + 1] = letter(*byte % 16);
    }
    f.write_str(unsafe { from_utf8_unchecked(&text[..bytes.len() * 2]) })
}

fn put_row<W: Write>(f: &mut Formatter<W>, bytes: &[u8]) -> fmt::Result
    ensures { WritesOnOk W.write_str_gives f.old result (row_text bytes.now) f.new }
{
    for part in bytes.chunks(32) {
        put_bytes(f, part)?;
    }
    writeln!(f)
}

// Rows of 32 bytes, the last of what is left.
#[derive(Clone, Copy)]
pub struct Rows<'a>(pub &'a [u8]);

#[tactic(auto, unfolding(crate::specs::Rows::rows_text))]
impl fmt::Display for Rows<'_> {
    ghost output = { λ r. Some (rows_text r.0.now) };

    fn fmt<W: Write>(&self, f: &mut Formatter<W>) -> fmt::Result {
        for row in self.0.chunks(32) {
            put_row(f, row)?;
        }
        Ok(())
    }
}

// `look BEST CLOSED IDLE V0 V1 ..`: the best slot, and what a look found.
#[derive(Clone, Copy)]
pub struct Best<'a>(pub usize, pub &'a Looked);

impl fmt::Display for Best<'_> {
    ghost output = { λ b. Some (best_text b.0 b.1.now) };

    fn fmt<W: Write>(&self, f: &mut Formatter<W>) -> fmt::Result {
        let Best(best, looked) = *self;
        let (closed, idle) = (looked.closed, looked.idle);
        write!(f, "look {best} {closed} {idle}")?;
        put_values(f, first(&looked.values, looked.n))
    }
}
