// The words of a line, which one space separates.
ghost use Rattle.std.specs.Prelude.{◌≡◌, length, map};
ghost use Rattle.std.specs.List.{range_with_len};
ghost use Rattle.script.specs.Words.{words_of, word_at};

use std::array;

// How many words a line has: two spaces in a row, a first or a last one make an empty word.
pub fn count(line: &[u8]) -> usize
    ensures { result ≡ length (words_of line.now) }
{
    line.split(|b| *b == b' ').count()
}

// Word k, counted from 0; empty where there is none.
pub fn word(line: &[u8], k: usize) -> &[u8]
    ensures { result.now ≡ word_at line.now k }
{
    line.split(|b| *b == b' ').nth(k).unwrap_or(&[])
}

// The first words of a line, empty past its last one.
pub fn first_words(line: &[u8]) -> [&[u8]; 7]
    ensures { map (λ w. w.now) result ≡ map (word_at line.now) (range_with_len 0 7) }
{
    array::from_fn(|k| word(line, k))
}
