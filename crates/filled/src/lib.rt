// A list in fixed memory, where a `Vec` would keep its items on the heap.
// It is not `ArrayVec` of the toolchain's crates: that lends no place behind its last item, where a save writes its bytes before it says how
// many they are; it writes its blanks again at each `clear`; and it appends a slice with a `Result`, where a caller here has shown room.
#![tactic(auto)]

ghost use Rattle.std.specs.Prelude.{◌≡◌, ◌+◌, ◌<◌, ◌≤◌, ◌++◌, [], ◌∷◌, length};

use std::marker::Model;

pub mod padded;

// The first `length` items of the array, which has room for N.
#[derive(Drop)]
pub struct Filled<T: Copy, const N: usize> {
    pub items: [T; N],
    pub length: usize,
}

impl<T: Copy, const N: usize> Model for Filled<T, N> {
    ghost use Rattle.std.specs.Prelude.{◌≤◌, List, take};

    ghost Value = { List T };

    ghost view = { λ f. take f.length f.items };

    ghost invariant = { λ f. f.length ≤ N };
}

impl<T: Copy, const N: usize> Filled<T, N> {
    // No item; the places hold the blank.
    pub fn new(blank: T) -> Self
        ensures { result ≡ [] }
    {
        Filled {
            items: [blank; N],
            length: 0,
        }
    }

    // How many items more it has room for.
    pub fn room(&self) -> usize
        ensures { length self.now + result ≡ N }
    {
        N - self.length
    }

    pub fn as_slice(&self) -> &[T]
        ensures { result.now ≡ self.now }
    {
        &self.items[..self.length]
    }

    pub fn clear(&mut self)
        ensures { self.new ≡ [] }
    {
        self.length = 0;
    }

    pub fn push(&mut self, item: T)
        requires { length self.old < N }
        ensures { self.new ≡ self.old ++ item ∷ [] }
    {
        self.items[self.length] = item;
        self.length += 1;
    }

    pub fn extend_from_slice(&mut self, more: &[T])
        requires { length self.old + length more.now ≤ N }
        ensures { self.new ≡ self.old ++ more.now }
    {
        let end = self.length + more.len();
        let places = &mut self.items[..];
        places[self.length..end].copy_from_slice(more);
        self.length = end;
    }
}
