// Sheets of elements of any one kind: sum, difference, part and count, over the one list of maximal elements.
#![tactic(auto)]

pub mod change;
mod finding;
mod listed;
mod moved;
mod pieces;
pub mod sheet;
pub mod slots;
mod splice;
pub mod within;
