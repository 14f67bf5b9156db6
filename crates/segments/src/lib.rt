// Line segments between lattice points.
#![tactic(auto)]

mod arithmetic;
pub mod segment;
