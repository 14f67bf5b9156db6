// The notation of grammar files: what its lines are, and (in specs/) how each is written.
#![tactic(auto)]

pub mod building;
pub mod contents;
pub mod refused;
