//! How rows are written.

/// How rows are written: what stands before each, and whether the rows of hits have their text.
#[derive(Clone, Copy)]
pub struct RowForm<'a> {
    /// What stands before each row.
    pub margin: &'a [u8],
    /// Whether the rows of hits have their text.
    pub has_text: bool,
}
