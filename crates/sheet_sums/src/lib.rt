// Sum and difference with a whole sheet, in place, and the laws of sums and differences.
#![tactic(auto)]

pub mod laws;
pub mod whole;
