//! The utility grep: from its words to its exit status, over any files.
#![tactic(auto)]

mod command;
mod files;
mod joined;
mod laws;
mod message_texts;
mod number;
mod operands;
mod pattern_list;
mod patterns;
mod prepare;
mod program;
mod refusal;
mod searchers;
mod texts;
mod usage;
mod words;

pub use command::{Matchers, run_grep};
pub use files::Files;
pub use laws::{broken_follows, failures_decide, row_follows, words_decide};
pub use message_texts::{fail, send_messages};
pub use number::read_number;
pub use program::Program;
pub use refusal::write_pattern_refused;
pub use searchers::{has_more_than, searchers_of};
pub use texts::{FAILED, OUT_OF_MEMORY, USAGE, WRITE_ERROR};
pub use usage::write_usage_fault;
pub use words::around::Side;
pub use words::tokens::{Argument, Meaning, meaning_of_option};
pub use words::{PatternSource, Request, UsageFault, read_words};
