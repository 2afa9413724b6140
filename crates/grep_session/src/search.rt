//! What is found in lines, and kept.
ghost use Rattle.std.specs.Prelude.{◌≡◌, length, map, IfOk, IfErr, [], All};
ghost use Rattle.re_search.specs.Working.Matchers.{matched_expression, AreAlike, AreSame};
ghost use Rattle.{re_search.specs.Searches.AddsAtMost, re_syntax.specs.Lines.HasNoNewline};
ghost use Rattle.line_chunks.specs.Working.Chunks.{all_of, line_text};
ghost use Rattle.grep_core.specs.Cost.{search_cost};
ghost use Rattle.grep_session.specs.Working.{Changed.{SearchesEach, anew}, Kept.ArePartsKept};
ghost use Rattle.grep_session.specs.{Working.Kept.IsKept, Touched.parting};

use crate::change::Change;
use crate::columns::find_in_lines;
use crate::kept::FileLines;
use crate::new_lines::{NewLines, kept_of};
use grep_core::Options;
use re_search::{LineParts, Matcher, Meter, Span, next_part};
use std::alloc::{AllocError, Global};

/// Allocator and options of a search.
#[derive(Clone, Copy, Drop)]
pub struct SearchContext {
    /// Where what is found is kept.
    pub alloc: Global,
    /// The options under which lines are searched.
    pub options: Options,
}

/// The parts of the line under `-o`, otherwise none. `line_parts` gets room for the line.
pub fn parts_of(
    search: &SearchContext,
    matchers: &mut [Matcher],
    line: &[u8],
    line_parts: &mut LineParts,
    meter: &mut Meter,
) -> Result<Vec<Span>, AllocError>
    requires whole { AreAlike search.now.options.line_regexp matchers.old }
    ensures ok { IfOk result
        (λ spans. ArePartsKept (map matched_expression matchers.old) search.now.options line.now
        spans.items) }
    ensures same_matchers { AreSame matchers.old matchers.new }
    ensures steps { AddsAtMost
        (search_cost (parting (map matched_expression matchers.old) search.now.options) line.now)
        meter.old meter.new }
{
    let mut spans = Vec::new(search.alloc);
    if !search.options.only_matching {
        return Ok(spans);
    }
    line_parts.make_room(line.len())?;
    line_parts.begin();
    let mut from = 0;
    while let Some(part) = next_part(
        matchers,
        search.options.line_regexp,
        line,
        from,
        line_parts,
        meter,
    ) {
        spans.push(part)?;
        from = part.end;
    }
    Ok(spans)
}

/// The lines with all that the matchers of a session find in them.
pub fn search_new(
    alloc: Global,
    matchers: &mut Vec<Matcher>,
    options: &Options,
    given: NewLines,
    meter: &mut Meter,
) -> Result<FileLines, AllocError>
    requires whole { AreAlike options.now.line_regexp matchers.old.items }
    ensures ok { IfOk result (λ lines.
        All (IsKept (map matched_expression matchers.old.items) options.now) (all_of lines)) }
    ensures texts { IfOk result (λ lines. map line_text (all_of lines) ≡ given) }
    ensures free { All HasNoNewline given }
    ensures same_matchers { AreSame matchers.old.items matchers.new.items }
    ensures memory { given ≡ [] → IfErr result (λ _. ⊥) }
    ensures steps { SearchesEach (anew 0 (length (map matched_expression matchers.old.items))) []
        (map matched_expression matchers.old.items) (map matched_expression matchers.old.items)
        options.now given meter.old meter.new }
{
    let mut lines = kept_of(given);
    if lines.len() == 0 {
        return Ok(lines);
    }
    let search = SearchContext {
        alloc,
        options: *options,
    };
    let mut line_parts = LineParts::new(alloc);
    let mut found = Vec::new(alloc);
    find_in_lines(
        &search,
        matchers,
        Change::anew(0, matchers.len()),
        &lines,
        &mut found,
        &mut line_parts,
        meter,
    )?;
    lines.put_columns(&mut found.into_iter());
    Ok(lines)
}
