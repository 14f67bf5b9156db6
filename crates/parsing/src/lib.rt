// What the lines of a grammar file say: its contents, and the commands in its bodies.
#![tactic(auto)]

pub mod entries;
pub mod listing;
pub mod strokes;
