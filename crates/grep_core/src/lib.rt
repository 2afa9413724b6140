//! The core of grep: its options and its status, the rows of the output, and the one pass over all
//! sources.
#![tactic(auto)]

mod laws;
mod options;
mod output;
mod search;
mod sources;
mod status;

pub use grep_io::{
    Buffered, CountedRead, CountedWrite, Limited, Lines, ReadDevice, ReadFault, Stage, Tally,
    WholeLines, WriteDevice, WriteFault, push_all,
};
pub use laws::{context_is_for_lines, has_one_answer, means_one};
pub use options::{Context, Flag, Form, Options};
pub use output::counts::{write_count, write_name};
pub use output::messages::{write_cannot_open, write_read_error};
pub use output::request::FileRequest;
pub use output::rows::{write_decimal, write_line, write_line_after, write_row, write_separator};
pub use output::summary::{report_fault, status_of, write_summary};
pub use search::file::count_found;
pub use search::next_line::send_before_read;
pub use search::requests::SearchRequest;
pub use search::run::search_all;
pub use search::same_choice::serves_for_others;
pub use sources::Sources;
pub use status::{FileEnd, FileFound, RunFault, Status};
