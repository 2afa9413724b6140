//! Regular expressions as trees, and what the texts are on which they are searched.
#![tactic(auto)]

mod bytes;
mod case_fold;
mod class;
mod limits;
mod span;
mod split;
mod tree;

pub use bytes::ByteSet;
pub use case_fold::fold;
pub use class::Class;
pub use limits::{MOST_PATTERNS, MOST_POSITIONS};
pub use span::Span;
pub use split::{FilePatterns, Patterns, split_file, split_list};
pub use tree::Tree;
