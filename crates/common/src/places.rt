// The i64 numbers in order, counted from 0: the words that a saved file has of them.
ghost use Rattle.std.specs.Prelude.{◌≡◌};
ghost use Rattle.common.specs.Places.{place_of, at_place};

// The place of 0.
const ZERO: u64 = 1 << 63;

// The place of x: x + 2^63.
pub fn place(x: i64) -> u64
    ensures { result ≡ place_of x }
{
    x.cast_unsigned().wrapping_add(ZERO)
}

// The i64 at a place.
pub fn at_place(n: u64) -> i64
    ensures { result ≡ at_place n }
{
    n.wrapping_sub(ZERO).cast_signed()
}
