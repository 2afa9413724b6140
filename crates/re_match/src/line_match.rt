ghost use Rattle.std.specs.Prelude.{◌≡◌, Bool, ℕ, ◌+◌, ◌-◌, ◌<◌, ◌≤◌, ◌↔◌, [], ◌∷◌, IsTrue, IfSome};
ghost use Rattle.std.specs.Prelude.{false, length, vec_capacity};
ghost use Rattle.re_trees.specs.{Holds.Matches, Lines.lines_of, Expression.Expression};
ghost use Rattle.{re_auto.specs.Searches.{FindsPart, AddsAtMost}, re_meter.specs.Meters.AddsJust};
ghost use Rattle.re_runs.specs.Working.Blocks.{next_cost, FindsMatched, IsBlock};
ghost use Rattle.re_ends.specs.Working.GreatestEnds.{AddsEnds, FoundPast};
ghost use Rattle.re_match.specs.Working.Aheads.{IsAhead, IsWindowOf, CountsAhead};
ghost use Rattle.re_match.specs.Working.Same.{SameMatcher};

use crate::ahead::Ahead;
use re_auto::Meter;
use re_ends::Window;
use re_trees::Span;

/// Decides whether a line is matched, and finds its matched parts. It is made for one expression,
/// which no search changes.
pub trait LineMatch {
    /// The expression that it is made for.
    ghost expression: { Self → Expression };

    /// Whether the whole line has to be matched (XCU grep, option `-x`).
    ghost whole: { Self → Bool };

    /// How many entries its cache may have, which no search changes; 0 without a cache.
    ghost room: { Self → ℕ };

    /// Whether the line is matched. A search of it takes at most one step for each of its bytes and
    /// one more, and passes at most as many bytes.
    fn is_match(&mut self, line: &[u8], meter: &mut Meter) -> bool
        ensures reported { IsTrue result ↔ Matches (expression self.old) line.now (whole self.old) }
        ensures same { SameMatcher expression whole room self.old self.new }
        ensures steps { AddsAtMost (length line.now + 1) meter.old meter.new };

    /// The leftmost-longest part that begins at `from` or later (XBD 9.1), if the whole line need not
    /// be matched. It takes at most one step for each byte from `from` on and one more, and passes at
    /// most as many bytes.
    fn find(&mut self, line: &[u8], from: usize, meter: &mut Meter) -> Option<Span>
        requires { from ≤ length line.now }
        ensures reported { FindsPart (expression self.old ∷ []) line.now false from result }
        ensures same { SameMatcher expression whole room self.old self.new }
        ensures steps { AddsAtMost (length line.now - from + 1) meter.old meter.new };

    /// Where the next part is, from `from` on, if the whole line need not be matched. Up to the end of
    /// the part, or to the line's end if there is none, it takes at most one step for each byte, and
    /// passes each at most once, and those before the part or the window. If it answers by a window, it
    /// passes no byte after the one that ends the window, and takes steps for those before the window
    /// alone.
    fn next_window(&mut self, line: &[u8], from: usize, meter: &mut Meter) -> Ahead
        requires { from < length line.now }
        ensures reported { IsAhead (expression self.old) line.now from result }
        ensures same { SameMatcher expression whole room self.old self.new }
        ensures steps { CountsAhead line.now from meter.old meter.new result };

    /// Gives each place of the window the greatest end of the parts that begin there, if the whole line
    /// need not be matched, and if it is greater than the end that the place has. It takes one step
    /// for each byte of the window, and passes no byte. `spare` is room for what it works with.
    fn add_ends(
        &mut self,
        line: &[u8],
        window: Window,
        ends: &mut [usize],
        spare: &mut Vec<usize>,
        meter: &mut Meter,
    )
        requires window { IsWindowOf (expression self.old) line.now window }
        requires ends { length ends.old ≡ window.end - window.start }
        requires spare { window.end - window.start ≤ vec_capacity spare.old }
        ensures added { AddsEnds
            (λ i m. FoundPast (expression self.old ∷ []) line.now false (window.start + i) m)
            ends.old ends.old ends.new }
        ensures same_spare { vec_capacity spare.old ≤ vec_capacity spare.new }
        ensures same { SameMatcher expression whole room self.old self.new }
        ensures steps { AddsJust (window.end - window.start) 0 meter.old meter.new };

    /// The first line of a block of whole lines that is matched, by its place without its newline.
    /// It takes at most one step for each byte up to that newline and one for the newline, and passes
    /// at most as many bytes. If no line is matched, it takes at most one step for each byte of the
    /// block, and passes each at most once.
    fn next_matched(&mut self, block: &[u8], meter: &mut Meter) -> Option<Span>
        requires { IsBlock block.now }
        ensures reported { FindsMatched (expression self.old) (whole self.old) (lines_of block.now)
            result }
        ensures within { IfSome result
            (λ at. (at.start ≤ at.end) × (at.end < length block.now)) }
        ensures same { SameMatcher expression whole room self.old self.new }
        ensures steps { AddsAtMost (next_cost block.now result) meter.old meter.new };
}
