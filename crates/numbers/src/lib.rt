// Numbers as campaign scripts and metrics exports write them. Each reader takes any bytes, and says so where they are no such number.
#![tactic(auto)]

ghost use Rattle.std.specs.Prelude.{◌≡◌};
ghost use Rattle.std.specs.Float.Ieee.{to_bits};
ghost use Rattle.std.specs.Float.{binary64};
ghost use Rattle.numbers.specs.Numbers.{digit_of, digit_in, number_of, whole_of, pattern_of, real_of, double_of, plain, negated, int_of};

use std::num::{f64_from_bits_with_nan, f64_to_bits_with_nan};

// The value of a digit: `0` to `9`, then `a` to `f`.
#[tactic(auto, unfolding(crate::specs::Numbers::digit_of))]
pub fn digit(b: u8) -> Option<u64>
    ensures { result ≡ digit_of b }
{
    match b {
        b'0'..=b'9' => Some((b - b'0') as u64),
        b'a'..=b'f' => Some((b - b'a') as u64 + 10),
        _ => None,
    }
}

// The value of a digit of the base. A byte that is no digit counts for 99, which no base below 100 has.
fn digit_in(b: u8, base: u64) -> Option<u64>
    ensures { result ≡ digit_in base b }
{
    let d = digit(b).unwrap_or(99);
    (d < base).then_some(d)
}

// The number that s spells in base, unless it passes 64 bits on the way. By hand: std's `from_str_radix` takes a sign, and capitals too.
#[tactic(auto, using(crate::proofs::Laws::turns))]
pub fn number(s: &[u8], base: u64) -> Option<u64>
    ensures { result ≡ number_of base s.now }
{
    let mut v: u64 = 0;
    for b in s {
        let d = digit_in(*b, base)?;
        v = v.checked_mul(base)?.checked_add(d)?;
    }
    Some(v)
}

// An unsigned number of 64 bits in decimal.
#[tactic(auto, unfolding(crate::specs::Numbers::whole_of))]
pub fn read_whole(s: &[u8]) -> Option<u64>
    ensures { result ≡ whole_of s.now }
{
    if s.is_empty() { None } else { number(s, 10) }
}

// A bit pattern: 16 hexadecimal digits, low case.
#[tactic(auto, unfolding(crate::specs::Numbers::pattern_of))]
pub fn read_pattern(s: &[u8]) -> Option<u64>
    ensures { result ≡ pattern_of s.now }
{
    if s.len() == 16 { number(s, 16) } else { None }
}

// The double of a bit pattern; any NaN pattern gives NaN. This and the next are std's, under the names that files and scripts read by.
pub fn real(w: u64) -> f64
    ensures { result ≡ real_of w }
{
    f64_from_bits_with_nan(w)
}

// The bit pattern of a double; 7ff8000000000000 of NaN.
pub fn bits_of(x: f64) -> u64
    ensures { result ≡ to_bits binary64 x }
{
    f64_to_bits_with_nan(x)
}

// A double, by its bit pattern.
#[tactic(auto, unfolding(crate::specs::Numbers::double_of))]
pub fn read_double(s: &[u8]) -> Option<f64>
    ensures { result ≡ double_of s.now }
{
    read_pattern(s).map(real)
}

#[tactic(auto, unfolding(crate::specs::Numbers::plain))]
fn unsigned(w: u64) -> Option<i64>
    ensures { result ≡ plain w }
{
    i64::try_from(w).ok()
}

// -w; -(w as i64) would not do for the least number.
#[tactic(auto, unfolding(crate::specs::Numbers::negated))]
fn minus(w: u64) -> Option<i64>
    ensures { result ≡ negated w }
{
    0i64.checked_sub_unsigned(w)
}

// A signed number of 64 bits in decimal, with an optional minus.
#[tactic(auto, unfolding(crate::specs::Numbers::int_of))]
pub fn read_int(s: &[u8]) -> Option<i64>
    ensures { result ≡ int_of s.now }
{
    match s {
        [b'-', digits @ ..] => minus(read_whole(digits)?),
        _ => unsigned(read_whole(s)?),
    }
}
