//! Limits of this grep, as in `specs/Limits.antt`.

/// The greatest number of positions of an expression, its intervals written out.
pub const MOST_POSITIONS: usize = 4096;

/// The greatest number of patterns.
pub const MOST_PATTERNS: usize = 65535;
