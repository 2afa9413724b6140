//! Why an edit is refused.
use re_syntax::PatternFault;

/// Why an edit of a session is refused. The session is then as it was.
#[derive(Clone, Copy, PartialEq, Eq, Debug, Drop)]
pub enum EditFault {
    /// There is no file of this number.
    NoSuchFile,
    /// The file has no lines, since it cannot be opened.
    FileIsMissing,
    /// The file has fewer lines.
    OutOfRange,
    /// A given line has a newline in it.
    LineHasNewline,
    /// There is no pattern of this number.
    NoSuchPattern,
    /// The text of a pattern is not valid: the number of the pattern, and why.
    Pattern(usize, PatternFault),
    /// There would be more than 65,535 patterns.
    TooManyPatterns,
    /// Memory ran out.
    Memory,
}
