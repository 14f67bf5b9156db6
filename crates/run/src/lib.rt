// A grammar file carried out from its bytes to the lines of the drawing that it leaves.
#![tactic(auto)]

pub mod bodies;
pub mod heading;
pub mod listing;
pub mod run;
pub mod tables;
