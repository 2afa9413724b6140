//! Stepping over a line: the automaton, and the sets of its positions.

pub mod automaton;
pub mod state_set;
