// The generator (SplitMix64, the stand-in for fastrand) and what is drawn from it: rng_util.rs and the fastrand calls
// that the sampler makes. One output is one draw.
#![tactic(auto)]

ghost use Rattle.std.specs.Prelude.{◌≡◌, ℕ, ◌*◌, ◌%◌, ◌^◌, ◌<◌, ◌≤◌, ◌≤ℤ◌, unsigned_abs};
ghost use Rattle.rng_util.specs.SplitMix.{drawn, mixed};
ghost use Rattle.rng_util.specs.Draws.{unit_of, usize_of, i64_of, range_of};
ghost use Rattle.rng_util.specs.Gen.{fresh, draw_of, Made, made};
ghost use Rattle.rng_util.specs.Many.{padded, many};
ghost use Rattle.rng_util.specs.Calls.{DrawsFew, MakesBy};
ghost use Rattle.rng_util.specs.declared.Gen.{Gen};

// The new word, and the output that belongs to it. It is no `Gen`: a step counts no draws, so it asks for no count that fits.
#[derive(Clone, Copy)]
pub struct Stepped {
    pub word: u64,
    pub output: u64,
}

// The generator's word, and how many draws the call has made so far. No ghost field bounds `draws`: each function asks for the room
// that its own draws need.
#[derive(Clone, Copy)]
pub struct Gen {
    pub word: u64,
    pub draws: u64,
}

impl Gen {
    // Nothing is drawn yet.
    pub fn new(word: u64) -> Gen
        ensures { result ≡ fresh word }
    {
        Gen { word, draws: 0 }
    }

    // One draw, counted.
    #[tactic(auto, unfolding(crate::specs::Gen::draw_of))]
    pub fn draw(&mut self) -> u64
        requires { self.old.draws < 2 ^ 63 }
        ensures { made result self.new ≡ draw_of self.old }
    {
        let stepped = next(self.word);
        self.word = stepped.word;
        self.draws += 1;
        stepped.output
    }
}

// a × b modulo 2^64: std's method, under the helper that document 01 asks for.
pub fn wrapping_mul(a: u64, b: u64) -> u64
    ensures { result ≡ (a * b) % 2 ^ 64 }
{
    a.wrapping_mul(b)
}

// (z xor z >> k) × m.
fn mix(z: u64, k: u64, m: u64) -> u64
    requires { k < 64 }
    ensures { result ≡ mixed z k m }
{
    wrapping_mul(z ^ (z >> k), m)
}

// SplitMix64: the word grows, and the output is mixed from the new word.
#[tactic(auto, unfolding(crate::specs::SplitMix::drawn, crate::specs::SplitMix::grown, crate::specs::SplitMix::output_of))]
pub fn next(word: u64) -> Stepped
    ensures { result ≡ drawn word }
{
    let w = word.wrapping_add(0x9e37_79b9_7f4a_7c15);
    let z1 = mix(w, 30, 0xbf58_476d_1ce4_e5b9);
    let z2 = mix(z1, 27, 0x94d0_49bb_1331_11eb);
    Stepped {
        word: w,
        output: z2 ^ (z2 >> 31),
    }
}

// `f64()`: the output's upper 53 bits, times 2^-53.
pub fn unit(output: u64) -> f64
    ensures { result ≡ unit_of output }
{
    ((output >> 11) as f64) * 1.1102230246251565e-16
}

// `usize(0..n)`.
pub fn usize_below(output: u64, n: u64) -> u64
    requires { 0 < n }
    ensures { result ≡ usize_of output n }
{
    output % n
}

// `i64(a..=b)`. The sizes leave room for bounds of 2^53 and for the number of steps between two of them.
pub fn i64_between(output: u64, a: i64, b: i64) -> i64
    requires { (a ≤ℤ b) × (unsigned_abs a ≤ 2 ^ 54) × (unsigned_abs b ≤ 2 ^ 54) }
    ensures { result ≡ i64_of output a b }
{
    let span = ((b - a) as u64) + 1;
    a + ((output % span) as i64)
}

// `f64_range`: one rounding per operation, and no clamp: rounding can reach high.
pub fn f64_range(low: f64, high: f64, u: f64) -> f64
    ensures { result ≡ range_of low high u }
{
    low + u * (high - low)
}

// n things made in order, each from the generator that the one before it left; the places after them are `blank`. By place: `make` is
// handed it.
#[inline]
pub fn many<T: Copy, const N: usize, F: Fn(usize, &mut Gen) -> T>(
    blank: T,
    n: usize,
    rng: &mut Gen,
    make: F,
) -> [T; N]
    requires fits { n ≤ N }
    requires few { DrawsFew F.Fn make n rng.old }
    ensures { (f : ℕ → Gen → Made T) → MakesBy F.Fn make n f → made result rng.new ≡ padded N blank (many f n 0 rng.old) }
{
    let mut things = [blank; N];
    for i in 0..n {
        things[i] = make(i, rng);
    }
    things
}
