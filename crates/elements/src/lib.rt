// Points, and ink over any kind.
#![tactic(auto)]

pub mod ink;
pub mod point;
