// HEX: the bytes that a `put` line carries. A `Command` says where they go; they stay in the line and are read from there.
ghost use Rattle.std.specs.Prelude.{◌≡◌, ◌+◌, ◌≤◌, length, is_some};
ghost use Rattle.numbers.specs.Numbers.{all_digits};
ghost use Rattle.script.specs.Hex.{is_hex, hex_digit, hex_of, put_bytes, fits_at, put_into, overwritten};

use crate::words::word;
use numbers::digit;

// The value of a digit, and 0 where the byte is none, so that two of them make a byte.
#[tactic(auto, using(crate::proofs::Digits::small), unfolding(crate::specs::Hex::hex_digit))]
fn hex_digit(b: u8) -> u8
    ensures { result ≡ hex_digit b }
{
    digit(b).unwrap_or(0) as u8
}

// Whether each byte is a hexadecimal digit.
fn all_digits(s: &[u8]) -> bool
    ensures { result ≡ all_digits 16 s.now }
{
    s.iter().all(|b| digit(*b).is_some())
}

// Whether a word is HEX.
#[tactic(auto, unfolding(crate::specs::Hex::is_hex))]
pub fn is_hex(word: &[u8]) -> bool
    ensures { result ≡ is_hex word.now }
{
    word.len() >= 2 && word.len() % 2 == 0 && all_digits(word)
}

// Stores the bytes of a word of digits, the first at `at`.
#[tactic(auto, using(crate::proofs::Digits::small))]
fn overwrite(hex: &[u8], file: &mut [u8], at: usize)
    requires { at + length (hex_of hex.now) ≤ length file.old }
    ensures { file.new ≡ overwritten at (hex_of hex.now) file.old }
{
    // Counted: tried as a `zip` of the file's places with the pairs, and `returns` stays open.
    for (k, pair) in hex.chunks_exact(2).enumerate() {
        file[at + k] = hex_digit(pair[0]) * 16 + hex_digit(pair[1]);
    }
}

// Stores the bytes of a `put` line from `at` on, where they end within the file.
#[tactic(auto, using(crate::proofs::Digits::half))]
pub fn put_bytes(line: &[u8], file: &mut [u8], at: u64) -> Option<()>
    ensures value { is_some result ≡ fits_at at (put_bytes line.now) file.old }
    ensures file_after { file.new ≡ put_into at (put_bytes line.now) file.old }
{
    let hex = word(line, 2);
    let at = at as usize;
    if at.checked_add(hex.len() / 2)? > file.len() {
        return None;
    }
    overwrite(hex, file, at);
    Some(())
}
