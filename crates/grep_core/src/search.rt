//! The search: of a line, of a source, of all sources.

pub mod around;
pub mod count;
pub mod file;
pub mod held;
pub mod line;
pub mod next_line;
pub mod recent;
pub mod requests;
pub mod run;
pub mod same_choice;
pub mod searched_block;
pub mod selection;
