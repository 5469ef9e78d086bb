// A list in fixed memory with zeros behind it. All that it holds is told by its list, so it is `Copy`. A `Filled` cannot be: behind its list
// is anything.
ghost use Rattle.std.specs.Prelude.{◌≡◌, ◌+◌, ◌<◌, ◌≤◌, ◌++◌, [], ◌∷◌, ⊤, length};

use std::alloc::AllocError;
use std::marker::Model;

// A type with a zero.
pub trait Zero: Copy {
    ghost zero: { Self };

    fn zero() -> Self
        ensures { result ≡ zero };
}

impl Zero for u8 {
    ghost zero = { 0 };

    fn zero() -> u8 {
        0
    }
}

impl Zero for u64 {
    ghost zero = { 0 };

    fn zero() -> u64 {
        0
    }
}

// The first `n` words of the array, which has room for N.
pub struct Padded<T: Zero, const N: usize> {
    words: [T; N],
    n: usize,
}

impl<T: Zero, const N: usize> Model for Padded<T, N> {
    ghost use Rattle.std.specs.Prelude.{◌≡◌, ◌≤◌, ◌-◌, ◌++◌, List, length, take, drop, replicate};
    ghost use Rattle.std.proofs.Common.{arith, ap, sym, ◌∙◌, take-append-drop, length-take-le};

    ghost Value = { List T };

    ghost view = { λ p. take p.n p.words };

    ghost invariant = { λ p. (p.n ≤ N) × (length p.words ≡ N) × (drop p.n p.words ≡ replicate (N - p.n) T.zero) };

    ghost inverse = { λ l. record { words = l ++ replicate (N - length l) T.zero; n = length l } };

    ghost inverse_ok = { λ p h i. let e = length-take-le p.n p.words (omega (arith, h.0, h.1)) in record {
      words = (ap (λ k. take p.n p.words ++ replicate (N - k) T.zero) e ∙ ap (λ l. take p.n p.words ++ l) (sym h.2) ∙ take-append-drop p.n p.words) i;
      n = e i;
    } };
}

impl<T: Zero, const N: usize> Copy for Padded<T, N> {}

impl<T: Zero, const N: usize> Clone for Padded<T, N> {
    ghost is_clone = { λ x y. y ≡ x };

    ghost is_infallible = { λ _. ⊤ };

    fn clone(&self) -> Result<Self, AllocError> {
        Ok(*self)
    }
}

impl<T: Zero, const N: usize> Padded<T, N> {
    pub fn new() -> Self
        ensures { result ≡ [] }
    {
        Padded {
            words: [T::zero(); N],
            n: 0,
        }
    }

    // How many items more it has room for.
    pub fn room(&self) -> usize
        ensures { length self.now + result ≡ N }
    {
        N - self.n
    }

    pub fn as_slice(&self) -> &[T]
        ensures { result.now ≡ self.now }
    {
        &self.words[..self.n]
    }

    pub fn clear(&mut self)
        ensures { self.new ≡ [] }
    {
        *self = Padded::new();
    }

    pub fn push(&mut self, item: T)
        requires { length self.old < N }
        ensures { self.new ≡ self.old ++ item ∷ [] }
    {
        self.words[self.n] = item;
        self.n += 1;
    }

    pub fn extend_from_slice(&mut self, more: &[T])
        requires { length self.old + length more.now ≤ N }
        ensures { self.new ≡ self.old ++ more.now }
    {
        let end = self.n + more.len();
        let places = &mut self.words[..];
        places[self.n..end].copy_from_slice(more);
        self.n = end;
    }
}
