//! The readers of patterns: they return trees, or say why a text is refused.
#![tactic(auto)]

mod ahead;
mod basic;
mod bracket;
mod building;
mod cursor;
mod escape;
mod extended;
mod fault;
mod interval;
mod laws;
mod profile;
mod reading;
mod shape;
mod syntax;
mod tokens;

pub use fault::{FaultKind, PatternFault};
pub use laws::{
    brackets_are_unique, cuts_are_unique, has_one_split, parts_are_unique, spells_one,
    standard_is_kept,
};
pub use re_trees::{
    ByteSet, Class, FilePatterns, MOST_PATTERNS, MOST_POSITIONS, Patterns, Span, Tree, fold,
    split_file, split_list,
};
pub use reading::{count_positions, read};
pub use syntax::Syntax;
