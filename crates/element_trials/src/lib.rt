// Worked cases of points, segments and ink.
#![tactic(auto)]

#[cfg(test)]
mod tests;
pub mod worked;
