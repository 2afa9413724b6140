//! The commands of a script: what a line of it asks for.
#![tactic(auto)]

mod command;
mod line_words;
mod pattern_list;

pub use command::{
    Command, CountedCommand, CountedEdit, FileEdit, LineEdit, PatternEdit, read_command,
};
pub use pattern_list::join_lines;
