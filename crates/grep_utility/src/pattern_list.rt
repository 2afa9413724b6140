//! What the patterns of a request are read as.
ghost use Rattle.std.specs.Prelude.{◌≡◌, ◌⊎◌, [], ◌∷◌, ◌++◌, IfOk, IfErr};
ghost use Rattle.{re_syntax.specs.Lines.lines_of, re_search.specs.Reading.IsOutOfMemory};
ghost use Rattle.grep_core.specs.Matchers.{IsFirstRefused};
ghost use Rattle.grep_utility.specs.Working.ServingMatchers.{ArePatterns};

use re_search::{Pattern, read_pattern};
use re_syntax::{FaultKind, PatternFault, Syntax, split_file};
use std::alloc::{AllocError, Global};

/// What is returned in place of a refused pattern if out of memory.
pub fn out_of_memory() -> (usize, PatternFault)
    ensures { IsOutOfMemory result.1 }
{
    let kind = FaultKind::Memory;
    (0, PatternFault { kind, at: 0 })
}

/// Adds a pattern.
fn add_pattern<'a>(patterns: &mut Vec<Pattern<'a>>, pattern: Pattern<'a>) -> Result<(), AllocError>
    ensures { IfOk result (λ _. patterns.new.items ≡ patterns.old.items ++ pattern.entry ∷ []) }
{
    patterns.push(pattern)?;
    Ok(())
}

/// What each of the patterns is read as, which are the lines of `texts`, in order.
///
/// # Errors
///
/// The place of the first pattern that is refused, counted from 0, and why; or `FaultKind::Memory`
/// at 0 if an allocation fails.
pub fn patterns_of(
    alloc: Global,
    texts: &[u8],
    syntax: Syntax,
    fold: bool,
) -> Result<Vec<Pattern<'_>>, (usize, PatternFault)>
    ensures ok { IfOk result
        (λ patterns. ArePatterns syntax fold (lines_of texts.now) patterns.items) }
    ensures err { IfErr result (λ refused. IsOutOfMemory refused.1
        ⊎ IsFirstRefused syntax fold (lines_of texts.now) refused.0 refused.1) }
{
    let mut patterns = Vec::new(alloc);
    for text in split_file(texts) {
        let pattern = match read_pattern(alloc, text, syntax, fold) {
            Ok(pattern) => pattern,
            Err(fault) => return Err((patterns.len(), fault)),
        };
        match add_pattern(&mut patterns, pattern) {
            Ok(()) => {}
            Err(_) => return Err(out_of_memory()),
        }
    }
    Ok(patterns)
}
