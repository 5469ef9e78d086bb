// What a script line does that asks something: the calls on the sampler and on the kept file, and their answers.
#![tactic(auto)]

pub mod session;
