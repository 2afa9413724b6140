//! Matchers that pass lines of a block in one sweep, as far as it is known without a search that
//! they are not matched.
ghost use Rattle.std.specs.Prelude.{◌≤◌, ◌≡◌, IsTrue, ◌+◌, ◌↔◌, ℕ, ◌<◌, length, IfSome, Bool};
ghost use Rattle.re_trees.specs.{Expression.Expression, Holds.Matches, Lines.lines_of};
ghost use Rattle.re_meter.specs.Meters.{AddsAtMost, AddsUpTo};
ghost use Rattle.re_match.specs.declared.sweeps.Stop.TheVariants.{Decided};
ghost use Rattle.re_match.specs.Working.Sweeps.{CountsSweep, left_for, steps_left, StopsAt};
ghost use Rattle.re_match.specs.Working.Same.{SameMatcher};
ghost use Rattle.re_runs.specs.Working.Blocks.{FindsMatched, next_cost, PassesUnmatched, IsBlock};

use re_auto::Meter;
use re_runs::line_end;
use re_trees::Span;

/// What a sweep says of the line at which it stopped.
#[derive(Clone, Copy, Drop)]
pub enum Stop {
    /// Nothing: the line was not looked over.
    Unseen,
    /// It may be matched.
    Seen,
    /// Whether it is matched.
    Decided(bool),
}

/// Where a sweep over a block of whole lines stopped.
#[derive(Clone, Copy, Drop)]
pub struct Sweep {
    /// Where the line begins at which it stopped; the end of the block if it passed all lines.
    pub start: usize,
    /// A place of that line, before which no match of it begins; `start` if none is known.
    pub first: usize,
    /// Up to where the block was looked over: `start`, or a place of that line or the end of its
    /// newline.
    pub reached: usize,
    /// What is said of that line.
    pub stop: Stop,
}

impl Sweep {
    /// A sweep stopped at `reached`, and says this of the line there, which begins at `start`.
    pub fn to(start: usize, reached: usize, stop: Stop) -> Sweep
        ensures { result ≡ record { start = start; first = start; reached = reached; stop = stop } }
    {
        Sweep {
            start,
            first: start,
            reached,
            stop,
        }
    }
}

/// A matcher that looks over a block for something that each matched line has.
pub trait Sweeps {
    /// The expression that it is made for.
    ghost expression: { Self → Expression };

    /// Whether the whole line has to be matched.
    ghost whole: { Self → Bool };

    /// How many entries its cache may have; 0 without a cache.
    ghost room: { Self → ℕ };

    /// Passes whole lines of a block of whole lines, none of which is matched. It takes a step
    /// for each of their bytes, at most one for each of the line where it stops if it decides that, and
    /// passes each byte that it looks over once.
    fn sweep(&mut self, block: &[u8], meter: &mut Meter) -> Sweep
        requires { IsBlock block.now }
        ensures passes { PassesUnmatched (expression self.old) (whole self.old) block.now
            result.start }
        ensures stops { StopsAt (expression self.old) (whole self.old) block.now result }
        ensures same { SameMatcher expression whole room self.old self.new }
        ensures steps { CountsSweep result meter.old meter.new };

    /// Whether the line is matched at which a sweep stopped. A line that it looked over is not looked
    /// over again.
    fn search_after(&mut self, stop: Stop, line: &[u8], meter: &mut Meter) -> bool
        requires { (answer : Bool) → stop ≡ Decided answer →
            IsTrue answer ↔ Matches (expression self.old) line.now (whole self.old) }
        ensures reported { IsTrue result ↔ Matches (expression self.old) line.now (whole self.old) }
        ensures same { SameMatcher expression whole room self.old self.new }
        ensures steps { AddsUpTo (steps_left stop (length line.now + 1))
            (left_for stop (length line.now + 1)) meter.old meter.new };
}

/// The first line of a block of whole lines that is matched, like `LineMatch::next_matched`. Each
/// line at which a sweep stops is searched, if the sweep doesn't decide it, from the
/// first place on at which a match may begin.
pub fn next_by_sweeps<M: Sweeps>(matcher: &mut M, block: &[u8], meter: &mut Meter) -> Option<Span>
    requires { IsBlock block.now }
    ensures reported { FindsMatched (M.expression matcher.old) (M.whole matcher.old)
        (lines_of block.now) result }
    ensures within { IfSome result (λ at. (at.start ≤ at.end) × (at.end < length block.now)) }
    ensures same { SameMatcher M.expression M.whole M.room matcher.old matcher.new }
    ensures steps { AddsAtMost (next_cost block.now result) meter.old meter.new }
{
    let mut start = 0;
    'lines: loop {
        let sweep = matcher.sweep(&block[start..], meter);
        let from = start + sweep.start;
        let Some(end) = line_end(block, from) else {
            return None;
        };
        let first = start + sweep.first;
        if matcher.search_after(sweep.stop, &block[first..end], meter) {
            return Some(Span { start: from, end });
        }
        start = end + 1;
    }
}
