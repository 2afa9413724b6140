//! A matcher for each of several patterns.
ghost use Rattle.std.specs.Prelude.{◌≡◌, ◌⊎◌, [], ◌∷◌, ◌++◌, IfErr, IfOk};
ghost use Rattle.{re_syntax.specs.Lines.lines_of, re_search.specs.Reading.IsOutOfMemory};
ghost use Rattle.grep_core.specs.{Matchers.IsFirstRefused, Working.MatcherLists.AreMatchers};
ghost use Rattle.grep_utility.specs.Working.ServingMatchers.{HaveRoom};

use grep_core::Options;
use re_search::{Matcher, Syntax};
use re_syntax::{FaultKind, PatternFault, split_file};
use std::alloc::{AllocError, Global};

/// How many entries the cache of one pattern may have.
pub(crate) const STATES: usize = 4096;

/// What is returned in place of a refused pattern if out of memory.
pub(crate) const NO_MEMORY: PatternFault = PatternFault {
    kind: FaultKind::Memory,
    at: 0,
};

/// A matcher for each of the patterns, which are the lines of `texts`, in order.
///
/// # Errors
///
/// The number of the first line that is refused, counted from 0, and why; or `FaultKind::Memory`.
pub(crate) fn matchers_of(
    alloc: Global,
    texts: &[u8],
    syntax: Syntax,
    options: &Options,
) -> Result<Vec<Matcher>, (usize, PatternFault)>
    ensures made { IfOk result
        (λ matchers. AreMatchers syntax options.now (lines_of texts.now) matchers.items) }
    ensures rooms { IfOk result (λ matchers. HaveRoom matchers.items) }
    ensures refused { IfErr result (λ refused. IsOutOfMemory refused.1
        ⊎ IsFirstRefused syntax options.now.ignore_case (lines_of texts.now) refused.0 refused.1) }
{
    let (fold, whole) = (options.ignore_case, options.line_regexp);
    let mut matchers = Vec::new(alloc);
    for text in split_file(texts) {
        let matcher = match Matcher::new(alloc, text, syntax, fold, whole, STATES) {
            Ok(matcher) => matcher,
            Err(fault) => return Err((matchers.len(), fault)),
        };
        match add(&mut matchers, matcher) {
            Ok(()) => {}
            Err(_) => return Err((0, NO_MEMORY)),
        }
    }
    Ok(matchers)
}

/// Adds a matcher.
pub(crate) fn add(matchers: &mut Vec<Matcher>, matcher: Matcher) -> Result<(), AllocError>
    ensures { IfOk result (λ _. matchers.new.items ≡ matchers.old.items ++ matcher ∷ []) }
{
    matchers.push(matcher)?;
    Ok(())
}
