// The methods of f64 that the sampler calls. Rounding reads a double's bit pattern: the sign, 11 bits of exponent, 52 digits.
#![tactic(auto)]

mod powers;

ghost use Rattle.std.specs.Prelude.{◌≡◌, ◌-◌, ◌^◌, ◌<◌, ◌≤◌, min, not, T, from_bits, is_nan};
ghost use Rattle.std.specs.Float.{binary64};
ghost use Rattle.rounding.specs.Round.{nearest_whole, whole_size, round_away};
ghost use Rattle.rounding.specs.Floor.{floor_of};
ghost use Rattle.rounding.specs.Clamp.{clamp_of};

// 2^63: the weight of the sign in the pattern.
const SIGN: u64 = powers::POW2[63];

// 2^52: the weight of the exponent in the pattern, and of the leading digit, which the pattern leaves out.
const LEADING: u64 = powers::POW2[52];

// `round`: to the nearest whole number, halves away from zero. From 2^52 on every double is whole. It is not std's `f64::round`, which has
// powers of two of its own: those that rounding works with come from the table (document 02, W4).
pub fn round(x: f64) -> f64
    ensures { result ≡ round_away x }
{
    if x.is_nan() {
        return x;
    }
    let bits = x.to_bits();
    if bits % SIGN / LEADING >= 1075 {
        return x;
    }
    let r = std::num::nearest_u64_to_f64(size_of(bits));
    if bits >= SIGN { -r } else { r }
}

// `floor`, and Rust's cast of it to an unsigned number.
#[tactic(auto, using(crate::proofs::Wholes::cast_is))]
pub fn floor(x: f64) -> u64
    ensures { result ≡ floor_of x }
{
    std::num::saturating_f64_to_u64(x)
}

// `clamp`: low below low, high above high, else the value itself. It is not std's `f64::clamp`, which asks that low is at most high.
#[tactic(auto, unfolding(crate::specs::Clamp::clamp_of))]
pub fn clamp(v: f64, low: f64, high: f64) -> f64
    ensures { result ≡ clamp_of v low high }
{
    if v < low {
        low
    } else if v > high {
        high
    } else {
        v
    }
}

// The size of x rounded, and Rust's cast of it to an unsigned number.
pub fn whole_size(x: f64) -> u64
    ensures { result ≡ min (whole_size x) (2 ^ 64 - 1) }
{
    if x.is_nan() {
        return 0;
    }
    size_of(x.to_bits())
}

// The same from the bit pattern. The exponent 1075 is that of a whole number of 53 digits; below it 1075 - exponent digits are a fraction.
fn size_of(bits: u64) -> u64
    requires { T (not (is_nan (from_bits binary64 bits))) }
    ensures { result ≡ min (whole_size (from_bits binary64 bits)) (2 ^ 64 - 1) }
{
    let exponent = bits % SIGN / LEADING;
    let digits = LEADING + bits % LEADING;
    if exponent < 1022 {
        0
    } else if exponent < 1075 {
        half_up(digits, (1075 - exponent) as usize)
    } else if exponent < 1087 {
        digits * powers::pow2((exponent - 1075) as usize)
    } else {
        u64::MAX
    }
}

// q / 2^k to the nearest whole number, halves up.
fn half_up(q: u64, k: usize) -> u64
    requires q_bound { q < 2 ^ 53 }
    requires le_k { (1 ≤ k) × (k ≤ 53) }
    ensures { result ≡ nearest_whole q (2 ^ k) }
{
    let powers = powers::table();
    (q + powers[k - 1]) / powers[k]
}
