// Whole numbers on a logarithmic scale (document 02, W9). R(p) is the whole part of 2^(p/256), p a position from 0 to 7,936.
#![tactic(auto)]

mod table;

ghost use Rattle.std.specs.Prelude.{◌≡◌, ◌≤◌, pos};
ghost use Rattle.ladder.specs.Inner.{inner_low, inner_high, position_of};
ghost use Rattle.ladder.specs.Rungs.{rung};

// The last position, and R there: 2^31.
const LAST: u64 = 7936;

const TOP: i64 = 1 << 31;

// R(p): 2^(p/256) is 2^(31 + i/256), i being p mod 256, less 31 - p / 256 binary digits.
pub fn rung(p: u64) -> u64
    requires { p ≤ 7936 }
    ensures { result ≡ rung p }
{
    u64::from(table::table()[(p % 256) as usize]) >> (31 - p / 256)
}

// The least position with R(p) at least x, which is the upper inner bound of x. In the octave of x, from 2^k to 2^(k + 1), R(p) is a
// number of the table less 31 - k digits, so the table is searched for x with as many digits more.
fn first_from(x: u64) -> u64
    requires { (1 ≤ x) × (x ≤ 2147483648) }
    ensures { result ≡ inner_high (pos x) }
{
    let k = 63 - u64::from(x.leading_zeros());
    let scaled = x << (31 - k);
    256 * k + table::table().partition_point(|t| u64::from(*t) < scaled) as u64
}

// 0 for low 1, else the largest position with R(p) below low.
#[tactic(auto, using(crate::proofs::Inner::inner))]
pub fn inner_low(low: i64) -> u64
    ensures { result ≡ inner_low low }
{
    if low <= 1 {
        0
    } else if low > TOP {
        LAST
    } else {
        first_from(low as u64) - 1
    }
}

// The least position with R(p) at least high.
#[tactic(auto, using(crate::proofs::Inner::inner))]
pub fn inner_high(high: i64) -> u64
    ensures { result ≡ inner_high high }
{
    if high <= 1 {
        0
    } else if high > TOP {
        LAST
    } else {
        first_from(high as u64)
    }
}

// The position of an entry: clamped to the inner bounds, then rounded.
pub fn position(value: f64, from: u64, to: u64) -> u64
    requires { (from ≤ 7936) × (to ≤ 7936) }
    ensures { result ≡ position_of value from to }
{
    let low = std::num::nearest_u64_to_f64(from);
    let high = std::num::nearest_u64_to_f64(to);
    rounding::whole_size(rounding::clamp(value, low, high))
}
