//! What an editor lists of a session: what changed since its last question, and pages of the hits.
#![tactic(auto)]

mod change_rows;
mod hits;
mod laws;
mod lists;
mod page_rows;
mod placed_hit;
mod row_form;
mod rows;
mod status;

pub use laws::{edits_carry, nothing_twice, one_splice, only_touched, untouched_lines};
pub use lists::{changes, page};
pub use row_form::RowForm;
