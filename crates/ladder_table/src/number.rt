// Whole numbers below 2^8192, exactly: 256 limbs of 32 bits, the lowest first.
ghost use Rattle.std.specs.Prelude.{IsTrue, ◌↔◌, ◌≡◌, ◌<◌, ◌≤◌, ◌*◌, ◌^◌, ◌++◌, [], ◌∷◌};
ghost use Rattle.ladder_table.specs.Number.{value};

// The limbs times t, in their place. What is carried out of the highest is the limb above it, and is returned.
#[tactic(auto, using(crate::proofs::Limbs::products))]
fn times(limbs: &mut [u32], t: u32) -> u32
    ensures { value (limbs.new ++ result ∷ []) ≡ value limbs.old * t }
{
    let mut carry = 0;
    for limb in limbs {
        (*limb, carry) = limb.carrying_mul(t, carry);
    }
    carry
}

// t^256. The first k limbs hold t^k.
#[tactic(auto, using(crate::proofs::Limbs::powers))]
pub fn power(t: u32) -> [u32; 256]
    ensures { value result ≡ t ^ 256 }
{
    let mut limbs = [0u32; 256];
    limbs[0] = t;
    for k in 1..256 {
        limbs[k] = times(&mut limbs[..k], t);
    }
    limbs
}

// One limb among zeros.
fn alone(k: usize, limb: u32) -> [u32; 256]
    requires { k < 256 }
    ensures { value result ≡ limb * (2 ^ 32) ^ k }
{
    let mut limbs = [0u32; 256];
    limbs[k] = limb;
    limbs
}

// 2^e, which is one bit.
#[tactic(auto, using(crate::proofs::Limbs::bits))]
pub fn power_of_two(e: usize) -> [u32; 256]
    requires { e < 8192 }
    ensures { value result ≡ 2 ^ e }
{
    alone(e / 32, 1 << (e % 32))
}

// Whether a is at most b. The highest of the limbs that differ tells, and it comes last.
#[tactic(auto, using(crate::proofs::Order::order))]
pub fn at_most(a: &[u32; 256], b: &[u32; 256]) -> bool
    ensures { IsTrue result ↔ (value a.now ≤ value b.now) }
{
    let mut answer = true;
    for (x, y) in a.iter().zip(b) {
        if x != y {
            answer = x < y;
        }
    }
    answer
}
