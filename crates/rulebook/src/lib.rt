// The rulebook: up to 32 rules, whose sides lie in tables that all rules share.
#![tactic(auto)]

pub mod records;
pub mod rulebook;
pub mod rules;
pub mod stroke;
pub mod table;
