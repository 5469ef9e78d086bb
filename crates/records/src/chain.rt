// A file's records, and their chain.
ghost use Rattle.std.specs.Prelude.{◌≡◌, ◌<◌};
ghost use Rattle.records.specs.Chain.{record_count, next_at, piece_at, chain_of, chain_length, walk, Walks};
ghost use Rattle.records.specs.Tables.{table_of};

use crate::bytes::read;
use crate::{Piece, Table};

// Record k's next index, and what else it holds.
fn next_at(file: &[u8], k: usize) -> usize
    requires { k < record_count file.now }
    ensures { result ≡ next_at file.now k }
{
    read(file, 32 * k, 2) as usize
}

fn piece_at(file: &[u8], k: usize) -> Piece
    requires { k < record_count file.now }
    ensures { result ≡ piece_at file.now k }
{
    let at = 32 * k;
    Piece {
        kind: read(file, at + 2, 2),
        position: read(file, at + 4, 4),
        first: read(file, at + 8, 8),
        second: read(file, at + 16, 8),
        third: read(file, at + 24, 8),
    }
}

// The number of records on the chain; none where a next index is past the end, or the chain does not end. A chain of more
// records than the file has meets one twice. Walked by hand, here and below: it is the count of steps that tells a chain from a ring.
pub fn chain_length(file: &[u8]) -> Option<usize>
    ensures { result ≡ chain_length (chain_of file.now) }
{
    let count = file.len() / 32;
    let mut k: usize = 0;
    for met in 0..count {
        if count <= k {
            return None;
        }
        k = next_at(file, k);
        if k == 0 {
            return Some(met + 1);
        }
    }
    None
}

// The records of one kind among the `count` of the chain. That the walk stays in the file is asked here and of two callers: in a struct of file
// and count the fact would need a lemma of its own, since it is said record by record.
pub fn collect(file: &[u8], count: usize, kind: u64) -> Table
    requires { Walks file.now count 0 }
    ensures { result ≡ table_of kind (walk file.now count 0) }
{
    let mut table = Table::new();
    let mut k: usize = 0;
    for _ in 0..count {
        table.lay(kind, piece_at(file, k));
        k = next_at(file, k);
    }
    table
}
