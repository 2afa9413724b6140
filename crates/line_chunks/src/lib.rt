//! The lines of a file in chunks of text, with what the patterns found in each: a line takes its
//! bytes and a few more, and what replaces some lines touches the chunks that these are in.
#![tactic(auto)]

mod chunk;
mod chunks;
mod columns;
mod entries;
mod kept;
mod new_chunks;

pub use chunk::Chunk;
pub use kept::KeptLines;
pub use line_finds::{Found, Matches, SpanLists};
