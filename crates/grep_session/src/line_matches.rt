//! Which patterns match which lines of a chunk.
ghost use Rattle.std.specs.Prelude.{[], length, IfOk, ◌∷◌, ◌≡◌, ◌+◌, ◌≤◌, ◌*◌, true, map};
ghost use Rattle.re_syntax.specs.Lines.{terminated};
ghost use Rattle.re_search.specs.Working.Matchers.{matched_expression, AreSame, IsSame, AreAlike};
ghost use Rattle.re_search.specs.{Working.Matchers.wants_whole, Searches.AddsAtMost};
ghost use Rattle.line_chunks.specs.Working.{Chunks.line_text, Finds.AreBelow};
ghost use Rattle.grep_session.specs.Working.Columns.{is_sought, AddsColumn, marked_cost, had_gone};
ghost use Rattle.grep_session.specs.Working.Columns.{AreMatches};

use crate::change::Change;
use crate::search::SearchContext;
use line_chunks::{Chunk, Matches};
use re_search::{LineMatch, Matcher, Meter};
use std::alloc::AllocError;

/// Adds the lines of a chunk that the matcher matches, if a pattern that went matched each of them:
/// `old` says which patterns matched each line. No other line is searched.
fn narrow_column(
    search: &SearchContext,
    matcher: &mut Matcher,
    number: usize,
    change: Change,
    chunk: &Chunk,
    old: &Matches,
    matches: &mut Matches,
    meter: &mut Meter,
) -> Result<(), AllocError>
    requires { AreBelow (length chunk.now) old.now }
    ensures ok { IfOk result (λ _.
        AddsColumn (had_gone change old.now) (map line_text chunk.now) (wants_whole matcher.old)
        number (matched_expression matcher.old ∷ []) matches.old matches.new) }
    ensures same { IsSame matcher.old matcher.new }
    ensures steps { AddsAtMost (marked_cost (had_gone change old.now) 1 (map line_text chunk.now)
        (length chunk.now)) meter.old meter.new }
{
    if old.len() == 0 {
        return Ok(());
    }
    let marks = old.marks_of(search.alloc, chunk.len(), change.first, change.gone)?;
    for k in 0..chunk.len() {
        if !marks[k] {
            continue;
        }
        if !matcher.is_match(chunk.line(k), meter) {
            continue;
        }
        matches.note(k, number)?;
    }
    Ok(())
}

/// Adds the lines of a chunk that the matcher of a pattern that came matches.
fn add_column(
    search: &SearchContext,
    matcher: &mut Matcher,
    number: usize,
    change: Change,
    chunk: &Chunk,
    old: &Matches,
    matches: &mut Matches,
    meter: &mut Meter,
) -> Result<(), AllocError>
    requires { AreBelow (length chunk.now) old.now }
    ensures ok { IfOk result (λ _.
        AddsColumn (is_sought change old.now) (map line_text chunk.now) (wants_whole matcher.old)
        number (matched_expression matcher.old ∷ []) matches.old matches.new) }
    ensures same { IsSame matcher.old matcher.new }
    ensures steps { AddsAtMost (marked_cost (is_sought change old.now) 1 (map line_text chunk.now)
        (length chunk.now)) meter.old meter.new }
{
    if change.narrower {
        narrow_column(search, matcher, number, change, chunk, old, matches, meter)?;
        return Ok(());
    }
    let mut from = 0;
    while from < chunk.len() {
        let Some(at) = matcher.next_matched(chunk.text_from(from), meter) else {
            return Ok(());
        };
        let k = chunk.number_at(from, chunk.start(from) + at.start);
        matches.note(k, number)?;
        from = k + 1;
    }
    Ok(())
}

/// Which patterns match which lines of a chunk after a change; `old` says it before the change.
pub fn find_matches(
    search: &SearchContext,
    matchers: &mut [Matcher],
    change: Change,
    chunk: &Chunk,
    old: &Matches,
    meter: &mut Meter,
) -> Result<Matches, AllocError>
    requires whole { AreAlike search.now.options.line_regexp matchers.old }
    requires within { change.first + change.come ≤ length matchers.old }
    requires below { AreBelow (length chunk.now) old.now }
    ensures ok { IfOk result
        (AreMatches change (map line_text chunk.now) search.now.options.line_regexp
        (map matched_expression matchers.old) old.now) }
    ensures same_matchers { AreSame matchers.old matchers.new }
    ensures steps { AddsAtMost (change.come * marked_cost (is_sought change old.now) 1
        (map line_text chunk.now) (length chunk.now)) meter.old meter.new }
{
    let mut matches = old.copied(search.alloc)?;
    let fewer = change.gone.saturating_sub(change.come);
    matches.drop_numbers(change.first, change.gone, fewer);
    for number in change.first..change.first + change.come {
        add_column(
            search,
            &mut matchers[number],
            number,
            change,
            chunk,
            old,
            &mut matches,
            meter,
        )?;
    }
    Ok(matches)
}
