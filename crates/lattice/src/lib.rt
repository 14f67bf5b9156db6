// The lattice: its field, the eight turns, placements and their order, and why a call is refused.
#![tactic(auto)]

pub mod field;
pub mod order;
pub mod placement;
pub mod refusal;
pub mod turn;
