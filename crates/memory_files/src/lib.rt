//! Files in memory, for tests of searches and of whole commands.
#![tactic(auto)]

mod files;
mod worked;

pub use files::{Content, MemoryFile, MemoryFiles, MemoryReader};
pub use worked::{run_broken, run_row};
