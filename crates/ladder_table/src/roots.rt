// The numbers of the table, worked out from their rule: the whole part of 2^(e/256) is the largest number whose 256th power is at most 2^e.
ghost use Rattle.std.specs.Prelude.{◌<◌, T};
ghost use Rattle.ladder.specs.Rungs.{WholePart};
ghost use Rattle.ladder.specs.Table.{is_ladder_table};

use crate::number::{at_most, power, power_of_two};

// The whole part of 2^(e/256), by halving: the 256th power of `low` is at most 2^e, and that of `high` + 1 is above it.
fn whole_part(e: usize) -> u32
    requires { e < 8192 }
    ensures { WholePart e result }
{
    let bound = power_of_two(e);
    let mut low = 0;
    let mut high = u32::MAX;
    while low < high {
        let middle = high - (high - low) / 2;
        if at_most(&power(middle), &bound) {
            low = middle;
        } else {
            high = middle - 1;
        }
    }
    low
}

// The whole part of 2^(31 + i/256), which is 2^((7,936 + i) / 256), for each i.
pub fn table() -> [u32; 256]
    ensures { T (is_ladder_table result) }
{
    let mut table = [0; 256];
    for i in 0..256 {
        table[i] = whole_part(7936 + i);
    }
    table
}
