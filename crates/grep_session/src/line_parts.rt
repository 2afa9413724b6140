//! The parts of the lines of a chunk after a change of the patterns.
ghost use Rattle.std.specs.Prelude.{◌≡◌, ℕ, ◌+◌, ◌<◌, ◌≤◌, [], length, map, get_or, IfOk, ◌&&◌};
ghost use Rattle.std.specs.Prelude.{if◌then◌else◌};
ghost use Rattle.re_search.specs.Working.Matchers.{AreAlike, AreSame, matched_expression};
ghost use Rattle.{re_search.specs.Searches.AddsAtMost, grep_core.specs.Cost.search_cost};
ghost use Rattle.line_chunks.specs.Working.{Chunks.{no_line, line_text}, Finds.AreBelow};
ghost use Rattle.grep_session.specs.Working.Columns.{ArePartsAgain, AreAllParts, is_parted};
ghost use Rattle.grep_session.specs.{Working.Columns.marked_cost, Touched.parting};

use crate::change::Change;
use crate::search::{SearchContext, parts_of};
use line_chunks::{Chunk, Matches, SpanLists};
use re_search::{LineParts, Matcher, Meter};
use std::alloc::AllocError;

/// Adds the parts of line `k` of a chunk: none if no pattern matches it, those that are searched
/// anew, or those that are kept.
fn put_parts(
    search: &SearchContext,
    matchers: &mut [Matcher],
    chunk: &Chunk,
    k: usize,
    matched: bool,
    anew: bool,
    parts: &mut SpanLists,
    line_parts: &mut LineParts,
    meter: &mut Meter,
) -> Result<(), AllocError>
    requires whole { AreAlike search.now.options.line_regexp matchers.old }
    requires inside { k < length chunk.now }
    requires later { length parts.old ≤ k }
    ensures few { IfOk result (λ _. length parts.new ≤ k + 1) }
    ensures others { IfOk result
        (λ _. (i : ℕ) → i < k → get_or parts.new i [] ≡ get_or parts.old i []) }
    ensures put { IfOk result (λ _.
        ArePartsAgain matched anew (map matched_expression matchers.old) search.now.options
        (get_or chunk.now k no_line) (get_or parts.new k [])) }
    ensures same_matchers { AreSame matchers.old matchers.new }
    ensures steps { AddsAtMost (if matched && anew then search_cost
        (parting (map matched_expression matchers.old) search.now.options)
        (line_text (get_or chunk.now k no_line)) else 0) meter.old meter.new }
{
    if !matched {
        return Ok(());
    }
    if !anew {
        return parts.put(k, chunk.spans(k));
    }
    let spans = parts_of(search, matchers, chunk.line(k), line_parts, meter)?;
    parts.put(k, &spans)
}

/// The parts of the lines of a chunk after a change: under `-o` of those that some pattern matches,
/// and otherwise none. `old` and `new` say which patterns matched which lines, and which do now.
pub fn find_parts(
    search: &SearchContext,
    matchers: &mut [Matcher],
    change: Change,
    chunk: &Chunk,
    old: &Matches,
    new: &Matches,
    line_parts: &mut LineParts,
    meter: &mut Meter,
) -> Result<SpanLists, AllocError>
    requires whole { AreAlike search.now.options.line_regexp matchers.old }
    requires old { AreBelow (length chunk.now) old.now }
    requires new { AreBelow (length chunk.now) new.now }
    ensures few { IfOk result (λ parts. length parts ≤ length chunk.now) }
    ensures ok { IfOk result
        (AreAllParts change (map matched_expression matchers.old) search.now.options chunk.now
        old.now new.now) }
    ensures same_matchers { AreSame matchers.old matchers.new }
    ensures steps { AddsAtMost (marked_cost (is_parted change old.now new.now)
        (parting (map matched_expression matchers.old) search.now.options) (map line_text chunk.now)
        (length chunk.now)) meter.old meter.new }
{
    let mut parts = SpanLists::new(search.alloc);
    if !search.options.only_matching {
        return Ok(parts);
    }
    let size = chunk.len();
    let matched = new.marks(search.alloc, size)?;
    let mut anew = old.marks_of(search.alloc, size, change.first, change.gone)?;
    new.add_marks_of(change.first, change.come, &mut anew);
    for k in 0..size {
        let again = change.all_parts | anew[k];
        put_parts(
            search, matchers, chunk, k, matched[k], again, &mut parts, line_parts, meter,
        )?;
    }
    Ok(parts)
}
