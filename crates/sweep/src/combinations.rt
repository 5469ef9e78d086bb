// Every combination of some axes' values.
ghost use Rattle.std.specs.Prelude.{◌≡◌, ◌<◌, ◌≤◌, ◌*◌, ◌-◌, ◌^◌, min, All, length, drop, map, flat_map, ◌++◌};
ghost use Rattle.std.specs.List.{range_with_len};
ghost use Rattle.sweep.specs.Axes.{Fine, product, count_within, combination};

use super::SweepRefusal;
use crate::axis::Axis;

// How many combinations there are; where they are 2^64 or more, 2^64 - 1. No product wraps.
#[tactic(auto, using(crate::proofs::Products::products))]
fn count(axes: &[Axis]) -> u64
    requires { All Fine axes.now }
    ensures { result ≡ min (product axes.now) (2 ^ 64 - 1) }
{
    let mut count: u64 = 1;
    for axis in axes {
        count = count.saturating_mul(axis.size);
    }
    count
}

// How many there are, unless "17, more combinations than 65,536 or than the lent memory holds".
pub fn count_within(axes: &[Axis], places: usize) -> Result<usize, SweepRefusal>
    requires fine { All Fine axes.now }
    requires few { length axes.now ≤ 16 }
    ensures { result ≡ count_within (product axes.now) (length axes.now) places }
{
    let all = count(axes);
    if all > 65536 || all as usize * axes.len() > places {
        Err(SweepRefusal::TooMany)
    } else {
        Ok(all as usize)
    }
}

// Combination i: its value of each axis, by the digits of i from the lowest, which is the last axis's.
#[tactic(auto, using(crate::proofs::Digits::digits))]
fn put(row: &mut [i64], axes: &[Axis], i: u64)
    requires { All Fine axes.now × (length row.old ≡ length axes.now) }
    ensures { row.new ≡ combination axes.now i }
{
    let mut left = i;
    for j in (0..axes.len()).rev() {
        let axis = axes[j];
        row[j] = axis.value(left % axis.size);
        left /= axis.size;
    }
}

// All of them, in order.
#[tactic(auto, using(crate::proofs::Rows::rows_none))]
pub fn put_all(out: &mut [i64], axes: &[Axis], count: usize)
    requires { All Fine axes.now × (count * length axes.now ≤ length out.old) }
    ensures { out.new ≡ flat_map (combination axes.now) (range_with_len 0 count) ++ drop (count * length axes.now) out.old }
{
    let n = axes.len();
    for i in 0..count {
        put(&mut out[i * n..(i + 1) * n], axes, i as u64);
    }
}
