//! What every match of an expression contains.
#![tactic(auto)]

mod anchors;
mod choice;
mod choice_needle;
mod leading_sets;
mod needle;
mod outline;
mod outline_item;

pub use anchors::has_begin;
pub use needle::{Needle, one_byte};
