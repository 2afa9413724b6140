//! What is kept of files: their lines, and what the patterns found in each.
use line_chunks::KeptLines;

/// The lines of a file: 65,536 bytes are the most of a chunk to which lines are added.
pub type FileLines = KeptLines<65_536>;

/// A file: its name, and its lines, or none if it cannot be opened.
#[derive(Drop)]
pub struct KeptFile {
    /// The name.
    pub name: Vec<u8>,
    /// The lines.
    pub lines: Option<FileLines>,
}
