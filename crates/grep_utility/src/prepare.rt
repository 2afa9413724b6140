//! A command before its search: its patterns are read.
ghost use Rattle.std.specs.Prelude.{◌≡◌, ℕ, List, Option, nat_lt, length, map, IfOk, IfErr};
ghost use Rattle.{re_syntax.specs.{Lines.lines_of, Bytes.Text}, grep_core.specs.Sources.Returns};
ghost use Rattle.grep_utility.specs.Working.{Tokens.asked, Prepared.{IsDue, IsPrepared}};
ghost use Rattle.grep_utility.specs.Patterns.{OneReaderEach};

use crate::files::Files;
use crate::patterns::read_patterns;
use crate::searchers::{has_more_than, searchers_of};
use crate::words::Request;
use re_search::Matcher;
use re_syntax::{FaultKind, MOST_PATTERNS, PatternFault};
use std::alloc::Global;

/// Why a command ends before its search.
#[derive(Clone, Copy, Drop)]
pub enum CommandFault<'a> {
    /// The pattern file that this word names could not be opened.
    Missing(&'a str),
    /// A read of the pattern file that this word names failed, or it has more lines than can be
    /// numbered.
    Broken(&'a str),
    /// An allocation failed.
    Memory,
    /// There are more patterns than are allowed.
    TooMany,
    /// The pattern at this place, counted from 0, is refused.
    Refused(usize, PatternFault),
}

/// The matchers for the patterns of a request, or why the command ends before its search.
pub fn prepare<'a, F: Files>(
    alloc: Global,
    request: &'a Request,
    files: &mut F,
) -> Result<Vec<Matcher>, CommandFault<'a>>
    ensures back { IfOk result (λ _. (left : List (Option Text))
        × OneReaderEach (asked request.now).sources left
        × Returns F.returned_readers files.old files.new left) }
    ensures ok { IfOk result (λ matchers. IsPrepared (asked request.now) (F.folder files.old)
        (F.folder files.new) matchers.items) }
    ensures none_failed { IfOk result (λ _. F.failures files.new ≡ F.failures files.old) }
    ensures err { IfErr result (λ fault. IsDue (asked request.now) (F.folder files.old)
        (F.failures files.old) (F.failures files.new) fault) }
{
    let texts = match read_patterns(alloc, files, &request.sources) {
        Ok(texts) => texts,
        Err(fault) => return Err(fault),
    };
    if has_more_than(MOST_PATTERNS, &texts) {
        return Err(CommandFault::TooMany);
    }
    match searchers_of(alloc, &texts, request.syntax, &request.options) {
        Ok(matchers) => Ok(matchers),
        Err((place, fault)) => {
            if fault.kind == FaultKind::Memory {
                return Err(CommandFault::Memory);
            }
            Err(CommandFault::Refused(place, fault))
        }
    }
}
