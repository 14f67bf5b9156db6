// Drawings: rules are applied at places, and the steps can be taken back.
#![tactic(auto)]

pub mod asking;
pub mod comparing;
pub mod drawing;
pub mod drawn;
pub mod records;
pub mod replaced;
pub mod steps;
