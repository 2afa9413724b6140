/// Why a text is no pattern. Each kind says what is at the place `PatternFault::at` (XBD 9.3, 9.4).
#[derive(Clone, Copy, PartialEq, Eq, Debug, Drop)]
pub enum FaultKind {
    /// The text ends inside a bracket expression. At the place: its opening `[`.
    UnclosedBracket,
    /// A `[:` inside a bracket expression without a class's name and `:]` after it. At the place:
    /// its `[`.
    BadClass,
    /// A `[.` or `[=` inside a bracket expression without one byte and `.]` or `=]` after it. At
    /// the place: its `[`.
    BadCollatingSymbol,
    /// A range in a bracket expression whose end is missing or below its start, or a hyphen where
    /// none is allowed. At the place: the hyphen.
    BadRange,
    /// The text ends inside a group. At the place: the first byte of the innermost open group.
    UnclosedGroup,
    /// A `\)` of a basic expression that closes no group. At the place: its backslash.
    UnopenedGroup,
    /// An interval whose greatest count is below its least, or in a basic expression a `\{` that
    /// begins no interval. At the place: the interval's first byte.
    BadInterval,
    /// An interval with a count above 255. At the place: the interval's first byte.
    IntervalTooLarge,
    /// A duplication with nothing before it to repeat. At the place: the duplication's first byte.
    NothingToRepeat,
    /// A backslash that ends the text. At the place: that backslash.
    TrailingBackslash,
    /// A backslash before a byte with which it has no meaning. At the place: the backslash.
    UndefinedEscape,
    /// A backslash before a digit from 1 to 9. That is a back-reference, which this project leaves
    /// out. At the place: the backslash.
    BackReference,
    /// Groups and duplications nested more than 256 deep. At the place: the first byte of the group
    /// or duplication that is one too many.
    TooDeep,
    /// An expression of more than 4096 positions, its intervals written out. The place is 0.
    TooLarge,
    /// Memory ran out. The place is 0, and the fault says nothing of the text.
    Memory,
}

/// A refused pattern: why, and where.
#[derive(Clone, Copy, PartialEq, Eq, Debug, Drop)]
pub struct PatternFault {
    /// Why the pattern is refused.
    pub kind: FaultKind,
    /// The place of the fault: a byte offset from 0 in the pattern's text.
    pub at: usize,
}
