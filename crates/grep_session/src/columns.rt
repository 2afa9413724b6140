//! What is found in all lines after a change of the patterns, chunk by chunk. Only patterns that came
//! are searched for, and the parts of the lines that one that went or came matches. Narrower ones are
//! searched for in the lines that one that went matched.
ghost use Rattle.std.specs.Prelude.{◌≡◌, ◌+◌, ◌≤◌, length, map, All, IsTrue, IfOk, OnErr};
ghost use Rattle.std.specs.Prelude.{vec_capacity};
ghost use Rattle.re_search.specs.Working.Matchers.{AreAlike, AreSame, matched_expression};
ghost use Rattle.line_chunks.specs.Working.Chunks.{FitsColumn, all_of, line_text};
ghost use Rattle.grep_session.specs.Working.Changed.{HasChanged, SearchesEach};
ghost use Rattle.grep_session.specs.Working.{Columns.{AddsColumns, StaysSame}, Kept.IsColumn};
ghost use Rattle.grep_session.specs.Working.Kept.{lines_of_files, IsFileKept, IsKept, kept_file};

use crate::change::Change;
use crate::found::put_columns;
use crate::kept::{FileLines, KeptFile};
use crate::line_matches::find_matches;
use crate::line_parts::find_parts;
use crate::search::SearchContext;
use crate::vec_push::push;
use grep_core::Options;
use line_chunks::{Chunk, Found, Matches};
use re_search::{LineParts, Matcher, Meter};
use std::alloc::{AllocError, Global};

/// Whether what was found in a chunk stays as it is: no pattern that went or moved had matched one of
/// its lines, and none that came does.
fn is_same(change: Change, old: &Matches, new: &Matches) -> bool
    ensures { IsTrue result → StaysSame change old.now new.now }
{
    if change.all_parts {
        return false;
    }
    if new.len() != old.len() {
        return false;
    }
    old.are_before(change.first)
}

/// What is found in the lines of a chunk after a change of the patterns; `None` where it is what
/// was found before.
fn find_in_chunk(
    search: &SearchContext,
    matchers: &mut [Matcher],
    change: Change,
    chunk: &Chunk,
    line_parts: &mut LineParts,
    meter: &mut Meter,
) -> Result<Option<Found>, AllocError>
    requires whole { AreAlike search.now.options.line_regexp matchers.old }
    requires within { change.first + change.come ≤ length matchers.old }
    ensures same_matchers { AreSame matchers.old matchers.new }
    ensures fits { IfOk result (FitsColumn chunk.now) }
    ensures ok { IfOk result (λ found.
        (h : HasChanged change (map matched_expression matchers.old) search.now.options) →
        All (IsKept h.before h.was) chunk.now
        → IsColumn (map matched_expression matchers.old) search.now.options chunk.now found) }
    ensures steps { (h : HasChanged change (map matched_expression matchers.old) search.now.options)
        → All (IsKept h.before h.was) chunk.now
        → SearchesEach change h.gone h.come (map matched_expression matchers.old) search.now.options
        (map line_text chunk.now) meter.old meter.new }
{
    let old = chunk.matches();
    let new = find_matches(search, matchers, change, chunk, old, meter)?;
    if is_same(change, old, &new) {
        return Ok(None);
    }
    let parts = find_parts(
        search, matchers, change, chunk, old, &new, line_parts, meter,
    )?;
    let found = Found::of(search.alloc, chunk.len(), new, parts)?;
    Ok(Some(found))
}

/// Adds what is found in the chunks of a file after a change of the patterns.
pub fn find_in_lines(
    search: &SearchContext,
    matchers: &mut Vec<Matcher>,
    change: Change,
    lines: &FileLines,
    found: &mut Vec<Option<Found>>,
    line_parts: &mut LineParts,
    meter: &mut Meter,
) -> Result<(), AllocError>
    requires whole { AreAlike search.now.options.line_regexp matchers.old.items }
    requires within { change.first + change.come ≤ length matchers.old.items }
    ensures same_matchers { AreSame matchers.old.items matchers.new.items }
    ensures room { vec_capacity matchers.new ≡ vec_capacity matchers.old }
    ensures ok { IfOk result (λ _.
        AddsColumns change (map matched_expression matchers.old.items) search.now.options lines.now
        found.old.items found.new.items) }
    ensures steps { (h : HasChanged change (map matched_expression matchers.old.items)
        search.now.options) → All (IsKept h.before h.was) (all_of lines.now)
        → SearchesEach change h.gone h.come (map matched_expression matchers.old.items)
        search.now.options (map line_text (all_of lines.now)) meter.old meter.new }
{
    for i in 0..lines.chunk_count() {
        let one = find_in_chunk(search, matchers, change, lines.chunk(i), line_parts, meter)?;
        push(found, one)?;
    }
    Ok(())
}

/// Replaces what is kept of the lines of a session's files with what is found in them after a
/// change of the patterns. If memory runs out, the files stay as they are.
pub fn find_columns(
    alloc: Global,
    matchers: &mut Vec<Matcher>,
    options: &Options,
    change: Change,
    files: &mut Vec<KeptFile>,
    meter: &mut Meter,
) -> Result<(), AllocError>
    requires whole { AreAlike options.now.line_regexp matchers.old.items }
    requires within { change.first + change.come ≤ length matchers.old.items }
    ensures same_matchers { AreSame matchers.old.items matchers.new.items }
    ensures room { vec_capacity matchers.new ≡ vec_capacity matchers.old }
    ensures same { map kept_file files.new.items ≡ map kept_file files.old.items }
    ensures ok { IfOk result (λ _.
        (h : HasChanged change (map matched_expression matchers.old.items) options.now) →
        All (IsFileKept h.before h.was) files.old.items
        → All (IsFileKept (map matched_expression matchers.new.items) options.now)
        files.new.items) }
    ensures err { OnErr result (files.new.items ≡ files.old.items) }
    ensures steps { (h : HasChanged change (map matched_expression matchers.old.items) options.now)
        → All (IsFileKept h.before h.was) files.old.items
        → SearchesEach change h.gone h.come (map matched_expression matchers.old.items) options.now
        (lines_of_files (map kept_file files.old.items)) meter.old meter.new }
{
    let search = SearchContext {
        alloc,
        options: *options,
    };
    let mut line_parts = LineParts::new(alloc);
    let mut found = Vec::new(alloc);
    for file in files.iter() {
        let Some(lines) = &file.lines else {
            continue;
        };
        find_in_lines(
            &search,
            matchers,
            change,
            lines,
            &mut found,
            &mut line_parts,
            meter,
        )?;
    }
    put_columns(files, found);
    Ok(())
}
