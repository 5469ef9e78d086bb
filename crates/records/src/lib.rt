// A saved file as records on a chain: numbers as bytes, the chain, and the records of a kind (document 02, W2). It knows no state.
#![tactic(auto)]

pub mod bytes;
pub mod chain;
pub mod laid;
pub mod tables;

// What a record holds beside its next index. Its kind is a number, here and in the functions below: a file has any there, and the one that
// is asked for is compared with it as it stands. The enum of the six that are meant stands in a crate above (kinds).
#[derive(Clone, Copy)]
pub struct Piece {
    pub kind: u64,
    pub position: u64,
    pub first: u64,
    pub second: u64,
    pub third: u64,
}

// The records of one kind: the words of position k stand at 3k, and filled[k] says whether there is such a record. It is no
// array of options: a kind's rows run across its records, and are read from the words as they lie. It is swept whole, so it has no count.
#[derive(Clone, Copy)]
pub struct Table {
    pub words: [u64; 3600],
    pub filled: [bool; 1200],
}
