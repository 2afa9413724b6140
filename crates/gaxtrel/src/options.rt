//! What is asked of a matcher that is made.
ghost use Rattle.std.specs.Prelude.{◌≡◌, ◌<◌, ◌↔◌, IsTrue, MatchOption, length};
ghost use Rattle.{re_syntax.specs.declared.syntax.Syntax.Syntax, gaxtrel.specs.Made.AreKnown};
ghost use Rattle.gaxtrel.specs.Made.{options_for, texts_for};

use crate::numbers::syntax_of;
use grep_utility::has_more_than;
use re_search::Syntax;
use re_syntax::MOST_PATTERNS;

/// What is asked of a matcher that is made.
#[repr(C)]
#[derive(Clone, Copy, Drop)]
pub struct GaxtrelOptions {
    /// The size of this struct, which may grow.
    pub size: usize,
    /// The number of the syntax.
    pub syntax: u32,
    /// Whether both cases of letters are alike.
    pub fold: bool,
    /// Whether the whole line has to be matched.
    pub whole: bool,
    /// Whether each line is a pattern.
    pub lines: bool,
    /// Whether such patterns are kept apart.
    pub apart: bool,
    /// How many patterns there may be.
    pub patterns: usize,
    /// The limit of a call's work; 0 is none.
    pub limit: u64,
}

/// The size of the options.
const SIZE: usize = 32;

/// The options of the calls that take none.
pub(crate) fn plain_options(
    syntax: u32,
    fold: bool,
    whole: bool,
    lines: bool,
    apart: bool,
) -> GaxtrelOptions
    ensures { result ≡ options_for syntax fold whole lines apart }
{
    GaxtrelOptions {
        size: SIZE,
        syntax,
        fold,
        whole,
        lines,
        apart,
        patterns: MOST_PATTERNS,
        limit: 0,
    }
}

/// The syntax, if the options are known.
pub(crate) fn known_syntax(options: &GaxtrelOptions) -> Option<Syntax>
    ensures { MatchOption result ((s : Syntax) → AreKnown options.now s → ⊥)
        (AreKnown options.now) }
{
    if options.size != SIZE {
        return None;
    }
    if options.patterns > MOST_PATTERNS {
        return None;
    }
    let Some(syntax) = syntax_of(options.syntax) else {
        return None;
    };
    Some(syntax)
}

/// Whether a text has more patterns than there may be.
pub(crate) fn has_too_many(options: &GaxtrelOptions, text: &[u8]) -> bool
    ensures { IsTrue result ↔ (options.now.patterns < length (texts_for options.now text.now)) }
{
    if !options.lines {
        return options.patterns == 0;
    }
    has_more_than(options.patterns, text)
}
