//! Searches by the steps of an automaton: sets of positions on their way over a line, and a bounded
//! cache of the steps between sets.
#![tactic(auto)]

mod pace;
mod pairs;
mod sets;
mod stride;
mod table;
mod walk;

pub use sets::SetPair;
pub use table::{LineSearch, StepTable};
pub use walk::{Lines, Outcome, Spot};
