//! What is found in the lines of a chunk: which patterns match which line, how many lines some
//! pattern matches, and the parts of lines that are kept.
#![tactic(auto)]

mod found;
mod matches;
mod pieces;

pub use found::Found;
pub use matches::Matches;
pub use pieces::{Pieces, SpanLists};
