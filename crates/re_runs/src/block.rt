//! Blocks of whole lines: finding one, passing over the first ones, and counting them, at once.
ghost use Rattle.std.specs.Prelude.{◌≡◌, ◌+◌, ◌<◌, ◌≤◌, ◌++◌, ◌∷◌, IfSome};
ghost use Rattle.std.specs.Prelude.{MatchOption, length, map, take, drop, ⊤, None};
ghost use Rattle.re_trees.specs.Lines.{lines_of, HasNoNewline, newline};
ghost use Rattle.re_runs.specs.Working.Runs.{look_cost, FindsRun, LacksRun, Runs};
ghost use Rattle.re_runs.specs.Working.Blocks.{FindsNext, next_cost, Lacks, IsBlock};
ghost use Rattle.re_runs.specs.Working.Blocks.{LooksOnce, PassesAll, StopsInLine, StandsIn};
ghost use Rattle.re_runs.specs.Working.{Blocks.IsLineFrom, Finders.runs_of};
ghost use Rattle.re_meter.specs.Meters.{many_passed, AddsUpTo};

use crate::newline::{first_newline, last_newline};
use crate::run_finder::RunFinder;
use crate::text_finder::find_text;
use memchr::memmem::Finder;
use re_meter::Meter;
use re_trees::Span;

/// Where a look over a block of whole lines stopped.
#[derive(Clone, Copy, Drop)]
pub struct Swept {
    /// Where the line begins in which it stopped; the end of the block if it found nothing.
    pub start: usize,
    /// The place in the block of what it found.
    pub place: Option<usize>,
}

/// Looks for the first line with the string in a block of whole lines.
pub fn first_line_with(finder: &Finder<'_>, block: &[u8], meter: &mut Meter) -> Swept
    requires { IsBlock block.now }
    ensures passes { PassesAll (Lacks finder.now) block.now result.start }
    ensures within { IfSome result.place (λ at. at ≤ length block.now) }
    ensures stops { StopsInLine block.now result }
    ensures counted { meter.new ≡ many_passed (look_cost block.now result.place) meter.old }
{
    let found = find_text(finder, block, meter);
    swept_at(block, found)
}

/// Looks for the first line with a run in a block of whole lines.
pub fn first_line_with_run(finder: &RunFinder, block: &[u8], meter: &mut Meter) -> Swept
    requires { IsBlock block.now }
    ensures passes { PassesAll (LacksRun (runs_of finder.now)) block.now result.start }
    ensures found { FindsRun block.now (runs_of finder.now) result.place }
    ensures low { IfSome result.place (λ at. result.start ≤ at) }
    ensures stops { StopsInLine block.now result }
    ensures counted { meter.new ≡ many_passed (look_cost block.now result.place) meter.old }
{
    let found = finder.find(block, meter);
    swept_at(block, found)
}

// Where a look over a block stopped that found this place, or nothing.
#[inline(always)]
fn swept_at(block: &[u8], found: Option<usize>) -> Swept
    requires block { IsBlock block.now }
    requires within { IfSome found (λ at. at ≤ length block.now) }
    ensures place { result.place ≡ found }
    ensures passes { (runs : Runs) → FindsRun block.now runs found →
        PassesAll (LacksRun runs) block.now result.start }
    ensures low { IfSome result.place (λ at. result.start ≤ at) }
    ensures stops { StopsInLine block.now result }
{
    let Some(at) = found else {
        return Swept {
            start: block.len(),
            place: None,
        };
    };
    Swept {
        start: line_start(block, at),
        place: Some(at),
    }
}

/// Where the line begins that has the place.
pub fn line_start(block: &[u8], at: usize) -> usize
    requires { at ≤ length block.now }
    ensures lines { PassesAll (λ _. ⊤) (take at block.now) result }
    ensures last { HasNoNewline (drop result (take at block.now)) }
{
    match last_newline(block, at) {
        Some(place) => place + 1,
        None => 0,
    }
}

/// The first line of a block of whole lines that has the string, by its place without its newline.
/// The string is looked for once.
pub fn next_line_with(finder: &Finder<'_>, block: &[u8], meter: &mut Meter) -> Option<Span>
    requires { IsBlock block.now }
    ensures reported { FindsNext (StandsIn finder.now) (lines_of block.now) result }
    ensures within { IfSome result (λ at. (at.start ≤ at.end) × (at.end < length block.now)) }
    ensures looked { LooksOnce finder.now block.now meter.old meter.new }
    ensures steps { AddsUpTo 0 (next_cost block.now result) meter.old meter.new }
{
    let Some(at) = find_text(finder, block, meter) else {
        return None;
    };
    let start = line_start(block, at);
    let Some(end) = line_end(block, at) else {
        return None;
    };
    // A string with a newline is on no line.
    if end - at < finder.needle().len() {
        return None;
    }
    Some(Span { start, end })
}

/// How many bytes of a block a search for its next line answers for: those up to the newline of the
/// line that was found, with that newline; all if none was found.
pub fn bytes_to(block: &[u8], found: Option<Span>) -> u64
    requires { IfSome found (λ at. at.end < length block.now) }
    ensures { result ≡ next_cost block.now found }
{
    match found {
        Some(at) => at.end as u64 + 1,
        None => block.len() as u64,
    }
}

/// Where the line ends that has the place; `None` if no newline follows.
#[inline(always)]
pub fn line_end(block: &[u8], start: usize) -> Option<usize>
    requires { start ≤ length block.now }
    ensures { MatchOption result (HasNoNewline (drop start block.now))
        (λ end. IsLineFrom block.now start end) }
{
    let length = first_newline(&block[start..])?;
    Some(start + length)
}
