// Runs the published SplitMix64 outputs, the bench figures of the leaves, and on the sampler the bounds and the small
// inputs of the table of refusals. The file stdout has what must come out.
#![tactic(auto)]

mod answers;
mod bounds_rule;
mod calls;
mod closings;
mod dimensions;
mod extras;
mod given;
mod leaves;
mod show;
mod sizes;
mod table;

use std::io;

fn main(rt: HostRuntime) -> io::Result<()> {
    leaves::published(&rt)?;
    leaves::units(&rt)?;
    leaves::rounds(&rt)?;
    leaves::steps(&rt)?;
    leaves::ladders(&rt)?;
    leaves::last_entry(&rt)?;
    table::setups(&rt)?;
    table::distributions(&rt)?;
    table::states(&rt)?;
    table::histories(&rt)?;
    sizes::sizes(&rt)?;
    dimensions::dimensions(&rt)?;
    extras::extras(&rt)?;
    closings::closings(&rt)?;
    bounds_rule::bounds_rules(&rt)
}
