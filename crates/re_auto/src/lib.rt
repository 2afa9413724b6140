//! Position automata: which stretches of a line an expression holds on, found by sets of its
//! positions that are stepped over the line one byte at a time.
#![tactic(auto)]

mod beginnings;
pub mod bits;
mod build;
mod laws;
mod mode;
mod ranges;
mod step;
mod tables;

pub use beginnings::Beginnings;
pub use build::BuildFault;
pub use build::ends::blank_set;
pub use build::rows::cross_rows;
pub use laws::{fronts_decide, positions_decide};
pub use mode::Mode;
pub use ranges::{WordRange, ranges_of};
pub use re_meter::{Meter, fresh_meter};
pub use step::automaton::Automaton;
pub use step::state_set::StateSet;
