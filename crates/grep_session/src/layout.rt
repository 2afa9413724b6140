//! What the rows of a file are laid out by.
use grep_core::FileRequest;

/// What is asked of a file, and the bytes before each of its rows.
#[derive(Clone, Copy)]
pub struct Layout<'a> {
    /// What is asked of the file.
    pub request: FileRequest<'a>,
    /// What each row begins with.
    pub margin: &'a [u8],
}
