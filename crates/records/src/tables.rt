// What a table holds.
ghost use Rattle.std.specs.Prelude.{◌≡◌, ◌≤◌, true, false, length, replicate};
ghost use Rattle.rng_util.specs.Many.{pad_to};
ghost use Rattle.records.specs.Tables.{no_records, lay, holds, same_words, same_flags};

use crate::laid::records_for;
use crate::{Piece, Table};

impl Table {
    // No record was met.
    pub fn new() -> Self
        ensures { result ≡ no_records }
    {
        Table {
            words: [0; 3600],
            filled: [false; 1200],
        }
    }

    // A record of the kind is laid at its position; one of another kind, or past the last place, is passed over.
    pub(crate) fn lay(&mut self, kind: u64, piece: Piece)
        ensures { self.new ≡ lay kind self.old piece }
    {
        let placed = piece.position < 1200;
        if piece.kind == kind && placed {
            let k = piece.position as usize;
            self.words[3 * k] = piece.first;
            self.words[3 * k + 1] = piece.second;
            self.words[3 * k + 2] = piece.third;
            self.filled[k] = true;
        }
    }

    // These words, and zeros after them.
    fn has_words(&self, words: &[u64]) -> bool
        requires { length words.now ≤ 3600 }
        ensures { result ≡ same_words self.now.words (pad_to 3600 0 words.now) }
    {
        let (front, rest) = self.words.split_at(words.len());
        front == words && rest.iter().all(|word| *word == 0)
    }

    // The first `count` positions are filled, and no other.
    fn is_filled_to(&self, count: usize) -> bool
        requires { count ≤ 1200 }
        ensures { result ≡ same_flags self.now.filled (pad_to 1200 false (replicate count true)) }
    {
        let (front, rest) = self.filled.split_at(count);
        front.iter().all(|filled| *filled) && rest.iter().all(|filled| !*filled)
    }

    // The records of these words: each at its position, and no other.
    pub fn holds(&self, words: &[u64]) -> bool
        requires { length words.now ≤ 3600 }
        ensures { result ≡ holds self.now words.now }
    {
        self.has_words(words) && self.is_filled_to(records_for(words.len()))
    }
}
