// The search for the places of a rule's left side on a drawing, over any two kinds. It keeps no memory of its own.
#![tactic(auto)]

pub mod first;
pub mod listing;
pub mod places;
pub mod scene;
