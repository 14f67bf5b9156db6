// Kinds of elements: what every kind means and keeps, as one trait.
#![tactic(auto)]

pub mod kind;
