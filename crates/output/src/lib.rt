// Drawings and refusals as text in a buffer that the caller provides.
#![tactic(auto)]

mod inscribed;
mod line;
pub mod refusals;
pub mod show;
