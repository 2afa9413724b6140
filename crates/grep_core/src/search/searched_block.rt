//! Lines that are searched at once.

/// The first of the lines that are held in one piece, as far as they were searched: those before
/// the first that is matched, and that line, if there is one.
#[derive(Clone, Copy)]
pub struct SearchedBlock<'a> {
    /// Whole lines, none of which is matched.
    pub before: &'a [u8],
    /// How many they are.
    pub before_count: u64,
    /// The line after them, which is matched, without its newline.
    pub line: Option<&'a [u8]>,
    /// How many bytes all lines have, with their newlines.
    pub bytes: usize,
    /// How many lines there are.
    pub count: u64,
}

/// Lines that were searched at once, and whose rows were written.
#[derive(Clone, Copy)]
pub struct SearchedLines {
    /// How many bytes they have, with their newlines.
    pub bytes: usize,
    /// How many they are.
    pub count: u64,
    /// How many of them are selected.
    pub found: u64,
    /// Whether there are some, and the next lines may be held in the same piece.
    pub goes_on: bool,
}
