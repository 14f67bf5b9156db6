// Reading text: numbers, words, fields and lines, all of them parts of the bytes that are read.
#![tactic(auto)]

pub mod decimals;
pub mod fields;
pub mod line;
pub mod lines;
mod parts;
pub mod reader;
pub mod words;
