//! Search for runs of sets of bytes in lines and in blocks of lines.
#![tactic(auto)]

mod alike;
mod block;
mod lanes;
mod newline;
mod nibbles;
mod probes;
mod rare_places;
mod run_finder;
mod runs;
mod set_finder;
mod survey;
mod text_finder;

pub use block::{
    Swept, bytes_to, first_line_with, first_line_with_run, line_end, line_start, next_line_with,
};
pub use newline::first_newline;
pub use nibbles::Nibbles;
pub use run_finder::{RunFinder, sets_of};
pub use set_finder::SetFinder;
pub use survey::{HALVED, Survey, rank_of};
pub use text_finder::{bytes_over, find_text};
