//! Which lines of a file are as an editor knows them, and which stretches of lines edits replaced
//! since the changes of the file were last reported.
#![tactic(auto)]

mod mark;
mod room;
mod splices;
mod stretch;
mod touched;

pub use mark::Mark;
pub use stretch::Stretch;
