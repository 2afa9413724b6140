//! Greatest ends: for each place of a line, the greatest place at which a matched stretch ends that
//! begins there. They are found in one pass back from the line's end.
#![tactic(auto)]

mod groups;
mod kept;
mod list;
mod pass;
mod preceding;
mod table;

pub use pass::Asked;
pub use table::{EndTable, Window};
