//! Several matchers over one line or block. What the crates above use of one matcher is passed on.
#![tactic(auto)]

mod choice;
mod line_parts;
mod matcher;
mod pattern;
mod several;
mod strings;

pub use choice::Choice;
pub use line_parts::{LineParts, next_part};
pub use matcher::Matcher;
pub use pattern::{Pattern, read_pattern};
pub use re_auto::Meter;
pub use re_match::{Cached, LineMatch, Strings};
pub use re_syntax::{Span, Syntax};
pub use several::{count_matched, is_matched, next_matched, parts};
