//! The matchers of a search, for all patterns together.
ghost use Rattle.std.specs.Prelude.{◌≡◌, ◌+◌, ◌^◌, ◌<◌, ◌≤◌, ◌⊎◌, [], ◌∷◌, nat_lt, Bool, IfOk};
ghost use Rattle.std.specs.Prelude.{IfErr, IfSome, IsTrue, length, map};
ghost use Rattle.{re_syntax.specs.Lines.lines_of, re_search.specs.Reading.IsOutOfMemory};
ghost use Rattle.grep_core.specs.Matchers.{IsFirstRefused};
ghost use Rattle.grep_utility.specs.Working.ServingMatchers.{ServeFor, IsJoined, AreStrings};

use crate::joined::joined_matchers;
use crate::pattern_list::{out_of_memory, patterns_of};
use grep_core::Options;
use re_search::{Matcher, Strings, read_pattern};
use re_syntax::{MOST_POSITIONS, PatternFault, Syntax, split_file};
use std::alloc::{AllocError, Global};

/// How many strings one automaton is quick for, whose needle is a choice of as many runs.
const FEW: usize = 20;

/// Above how many strings an automaton that has all of them is quicker than a pass that leaps.
const MANY: usize = 48;

/// How many bytes the patterns may have that one pass looks for. They have at most one beginning
/// more than bytes, and the pass numbers its beginnings in 32 bits.
const MOST_BYTES: usize = 4_294_967_294;

/// The matchers of a search for the patterns, which are the lines of `texts`: one for all that are
/// strings, where that is quicker; else one automaton for as many as have 4,096 positions together.
///
/// # Errors
///
/// Those of [`patterns_of`].
pub fn searchers_of(
    alloc: Global,
    texts: &[u8],
    syntax: Syntax,
    options: &Options,
) -> Result<Vec<Matcher>, (usize, PatternFault)>
    ensures ok { IfOk result
        (λ matchers. ServeFor syntax options.now (lines_of texts.now) matchers.items) }
    ensures err { IfErr result (λ refused. IsOutOfMemory refused.1
        ⊎ IsFirstRefused syntax options.now.ignore_case (lines_of texts.now) refused.0 refused.1) }
{
    if let Some(strings) = many_strings(alloc, texts, syntax, options) {
        let Ok(matchers) = joined(alloc, &strings, options) else {
            return Err(out_of_memory());
        };
        return Ok(matchers);
    }
    let patterns = patterns_of(alloc, texts, syntax, options.ignore_case)?;
    let Ok(matchers) = joined_matchers(alloc, patterns, options) else {
        return Err(out_of_memory());
    };
    Ok(matchers)
}

/// Whether there are more patterns than this, which are the lines of `texts`.
pub fn has_more_than(most: usize, texts: &[u8]) -> bool
    ensures { result ≡ nat_lt most (length (lines_of texts.now)) }
{
    split_file(texts).nth(most).is_some()
}

/// Whether one pass is quicker for the lines of `texts`, if they are strings: they are more than twenty,
/// and have too many positions for one automaton, or parts are asked for, or the pass leaps.
fn are_for_one_pass(texts: &[u8], options: &Options) -> bool
    ensures { IsTrue result → 1 ≤ length (lines_of texts.now) }
{
    if !has_more_than(FEW, texts) {
        return false;
    }
    let leaps = !options.ignore_case && !options.line_regexp && !has_more_than(MANY, texts);
    leaps || options.only_matching || texts.len() > MOST_POSITIONS
}

/// The strings that the patterns are, each followed by a newline, where one pass for them is quicker.
/// No list of the patterns is made. `None`: a pattern is something else or refused, or out of
/// memory.
fn many_strings(alloc: Global, texts: &[u8], syntax: Syntax, options: &Options) -> Option<Vec<u8>>
    ensures few { IfSome result (λ _. length texts.now + 1 < 2 ^ 32) }
    ensures some { IfSome result (λ _. 1 ≤ length (lines_of texts.now)) }
    ensures read { IfSome result
        (λ strings. AreStrings syntax options.now.ignore_case (lines_of texts.now)
        (lines_of strings.items)) }
{
    if texts.len() > MOST_BYTES || !are_for_one_pass(texts, options) {
        return None;
    }
    let mut strings = Vec::new(alloc);
    for text in split_file(texts) {
        let Ok(pattern) = read_pattern(alloc, text, syntax, options.ignore_case) else {
            return None;
        };
        pattern.add_strings(alloc, &mut strings)?;
    }
    Some(strings)
}

/// The one matcher for all strings.
fn joined(alloc: Global, texts: &[u8], options: &Options) -> Result<Vec<Matcher>, AllocError>
    ensures { IfOk result (λ matchers. IsJoined options.now (lines_of texts.now) matchers.items) }
{
    let strings = Strings::any(alloc, texts, options.ignore_case, options.line_regexp)?;
    let mut matchers = Vec::new(alloc);
    matchers.push(Matcher::Strings(strings))?;
    Ok(matchers)
}
