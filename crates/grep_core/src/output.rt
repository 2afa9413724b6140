//! The output: rows, counts, names and messages.

pub mod around;
pub mod counts;
pub mod messages;
pub mod request;
pub mod rows;
pub mod summary;
