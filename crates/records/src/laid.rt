// Records laid in a file.
ghost use Rattle.std.specs.Prelude.{◌≡◌, cond, ◌+◌, ◌*◌, ◌<◌, ◌≤◌, eqb, length, slice_index};
ghost use Rattle.std.proofs.Math.Seq.{paste};
ghost use Rattle.records.specs.Chain.{record_bytes, records_from};
ghost use Rattle.records.specs.Tables.{records_for, piece_of, section};

use crate::Piece;
use crate::bytes::put;

// How many records hold n words.
pub fn records_for(n: usize) -> usize
    ensures { result ≡ records_for n }
{
    n.div_ceil(3)
}

// The next index of a record that `after` would follow, of `count` records.
fn next_of(after: usize, count: usize) -> u64
    ensures { result ≡ cond (eqb after count) 0 after }
{
    if after == count {
        return 0;
    }
    after as u64
}

// Word i, 0 past the end.
fn word(words: &[u64], i: usize) -> u64
    ensures { result ≡ slice_index words.now i }
{
    words.get(i).copied().unwrap_or(0)
}

// The record of a kind at position k. Word by word: the last record may have fewer than three.
fn piece_of(kind: u64, words: &[u64], k: usize) -> Piece
    requires { k < records_for (length words.now) }
    ensures { result ≡ piece_of kind words.now k }
{
    Piece {
        kind,
        position: k as u64,
        first: word(words, 3 * k),
        second: word(words, 3 * k + 1),
        third: word(words, 3 * k + 2),
    }
}

// The record's 32 bytes, from place `at` on.
fn put_record(file: &mut [u8], at: usize, next: u64, piece: Piece)
    requires { at + 32 ≤ length file.old }
    ensures { file.new ≡ paste file.old at (record_bytes next piece) 32 }
{
    put(file, at, 2, next);
    put(file, at + 2, 2, piece.kind);
    put(file, at + 4, 4, piece.position);
    put(file, at + 8, 8, piece.first);
    put(file, at + 16, 8, piece.second);
    put(file, at + 24, 8, piece.third);
}

// The records of a kind, the first one with index k, in a file of `count`. By place: it says where a record's bytes go.
pub fn put_section(file: &mut [u8], count: usize, k: usize, kind: u64, words: &[u64])
    requires { 32 * (k + records_for (length words.now)) ≤ length file.old }
    ensures { file.new ≡ paste file.old (32 * k) (records_from count k (section kind words.now)) (32 * records_for (length words.now)) }
{
    for j in 0..records_for(words.len()) {
        let next = next_of(k + j + 1, count);
        put_record(file, 32 * (k + j), next, piece_of(kind, words, j));
    }
}
