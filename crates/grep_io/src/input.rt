//! The lines of a reader.

pub mod lines;
pub mod newlines;
pub mod window;
