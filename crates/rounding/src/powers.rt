// The powers of two that rounding works with: those from 2^0 to 2^63 come from this table (document 02, W4).
ghost use Rattle.std.specs.Prelude.{◌≡◌, ◌^◌, ◌<◌, T};
ghost use Rattle.rounding.specs.Powers.{powers_of_two};

// 2^0 to 2^63.
pub const POW2: [u64; 64] = [
    1,
    2,
    4,
    8,
    16,
    32,
    64,
    128,
    256,
    512,
    1024,
    2048,
    4096,
    8192,
    16384,
    32768,
    65536,
    131072,
    262144,
    524288,
    1048576,
    2097152,
    4194304,
    8388608,
    16777216,
    33554432,
    67108864,
    134217728,
    268435456,
    536870912,
    1073741824,
    2147483648,
    4294967296,
    8589934592,
    17179869184,
    34359738368,
    68719476736,
    137438953472,
    274877906944,
    549755813888,
    1099511627776,
    2199023255552,
    4398046511104,
    8796093022208,
    17592186044416,
    35184372088832,
    70368744177664,
    140737488355328,
    281474976710656,
    562949953421312,
    1125899906842624,
    2251799813685248,
    4503599627370496,
    9007199254740992,
    18014398509481984,
    36028797018963968,
    72057594037927936,
    144115188075855872,
    288230376151711744,
    576460752303423488,
    1152921504606846976,
    2305843009213693952,
    4611686018427387904,
    9223372036854775808,
];

// The table as a whole: entry k is 2^k. It is lent: an array that is handed on by value is written to the stack, entry by entry.
#[tactic(auto, unfolding(crate::specs::Powers::powers_of_two))]
pub fn table() -> &'static [u64; 64]
    ensures { T (powers_of_two result.now) }
{
    &POW2
}

// 2^k.
#[tactic(auto, using(crate::proofs::Entries::entries))]
pub fn pow2(k: usize) -> u64
    requires { k < 64 }
    ensures { result ≡ 2 ^ k }
{
    table()[k]
}
