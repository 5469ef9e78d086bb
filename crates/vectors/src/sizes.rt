// The user's size: 160 passes, 161 doesn't; below 4 it is raised to 4.
use crate::answers::is_refused;
use crate::calls::discovered;
use crate::show::figure;
use de::build::DESamplerBuilder;
use distribution::Refusal;
use evolution::Setup;
use std::io;

fn with_size(size: u64) -> Result<Setup, Refusal> {
    DESamplerBuilder::new().population_size(size).build()
}

fn n_of(size: u64) -> usize {
    discovered(size).n
}

pub fn sizes(rt: &impl Print) -> io::Result<()> {
    figure(rt, "size 160 passes", with_size(160).is_ok())?;
    figure(rt, "size 161 is 3", is_refused(with_size(161), 3))?;
    figure(rt, "size 0 is N = 4", n_of(0) == 4)?;
    figure(rt, "size 3 is N = 4", n_of(3) == 4)?;
    figure(rt, "size 4 is N = 4", n_of(4) == 4)?;
    figure(rt, "size 5 is N = 5", n_of(5) == 5)?;
    figure(rt, "size 160 is N = 160", n_of(160) == 160)
}
