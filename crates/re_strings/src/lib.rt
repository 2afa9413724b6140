//! The search for many strings at once by the Aho-Corasick algorithm.
#![tactic(auto)]

mod aho_corasick;
mod build;
mod ends;
mod growth;
mod keys;
mod leaps;
mod links;
mod occurrences;
mod step_rows;
mod trie;

pub use aho_corasick::AhoCorasick;
pub use build::table_of;
pub use leaps::Payoff;
pub use occurrences::add_occurrences;
