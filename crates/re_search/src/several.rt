//! Several matchers over one line (XCU grep: a line is selected where any of the patterns matches
//! it).
ghost use Rattle.std.specs.Prelude.{ℕ, Bool, true, List, ◌+◌, ◌-◌, ◌*◌, ◌<◌, ◌≤◌, ◌++◌, ◌↔◌};
ghost use Rattle.std.specs.Prelude.{IfSome, IsTrue, length};
ghost use Rattle.re_syntax.specs.{Bytes.Text, Expression.Expression, Lines.lines_of};
ghost use Rattle.re_auto.specs.Searches.{AddsAtMost, FindsPart};
ghost use Rattle.re_runs.specs.Working.Blocks.{IsBlock, next_cost};
ghost use Rattle.re_search.specs.Working.Matchers.{AreAlike, AreSame, expressions_of};
ghost use Rattle.re_search.specs.Working.Sought.{CountsSought, FindsSought, IsSought, sought_of};

use crate::matcher::Matcher;
use re_auto::Meter;
use re_match::LineMatch;
use re_runs::line_end;
use re_syntax::Span;

/// The next part of the line: the leftmost-longest of the stretches that are not empty, begin at
/// `from` or later and are matched by some matcher (XBD 9.1). `whole` is what all matchers answer
/// to whether the whole line has to be matched. Called with 0 and then with the end of each part,
/// it returns all parts of the line. It takes at most one step for each matcher and byte from
/// `from` on, and one more for each matcher, and passes at most as many bytes.
pub fn parts(
    matchers: &mut [Matcher],
    whole: bool,
    line: &[u8],
    from: usize,
    meter: &mut Meter,
) -> Option<Span>
    requires within { from ≤ length line.now }
    requires alike { AreAlike whole matchers.old }
    ensures reported { FindsPart (expressions_of matchers.old) line.now whole from result }
    ensures same_matchers { AreSame matchers.old matchers.new }
    ensures steps { AddsAtMost (length matchers.old * (length line.now - from + 1)) meter.old
        meter.new }
{
    if whole {
        return line_part(matchers, line, from, meter);
    }
    let mut best = None;
    for matcher in matchers.iter_mut() {
        let found = matcher.find(line, from, meter);
        best = better(best, found);
    }
    best
}

/// The line, if the part is to begin there, and some matcher matches it. All have to answer that
/// the whole line has to be matched.
pub fn line_part(
    matchers: &mut [Matcher],
    line: &[u8],
    from: usize,
    meter: &mut Meter,
) -> Option<Span>
    requires { AreAlike true matchers.old }
    ensures reported { FindsPart (expressions_of matchers.old) line.now true from result }
    ensures same_matchers { AreSame matchers.old matchers.new }
    ensures steps { AddsAtMost (length matchers.old * (length line.now - from + 1)) meter.old
        meter.new }
{
    if from > 0 || line.is_empty() {
        return None;
    }
    if !is_matched(matchers, true, line, meter) {
        return None;
    }
    Some(Span {
        start: 0,
        end: line.len(),
    })
}

// The one of two parts that begins earlier, and of two that begin together the longer one.
fn better(best: Option<Span>, found: Option<Span>) -> Option<Span>
    ensures { (es fs : List Expression) (line : Text) (whole : Bool) (from : ℕ)
        → FindsPart es line whole from best → FindsPart fs line whole from found
        → FindsPart (es ++ fs) line whole from result }
{
    let Some(old) = best else {
        return found;
    };
    let Some(new) = found else {
        return best;
    };
    if new.start < old.start {
        return found;
    }
    if new.start == old.start && old.end < new.end {
        return found;
    }
    best
}

/// Whether some matcher matches the line. `whole` is as for [`parts`]. None is asked after the first
/// that matches. It takes at most one step for each matcher and byte, and one more for each matcher,
/// and passes at most as many bytes.
pub fn is_matched(matchers: &mut [Matcher], _whole: bool, line: &[u8], meter: &mut Meter) -> bool
    requires alike { AreAlike _whole matchers.old }
    ensures reported { IsTrue result ↔ IsSought (sought_of _whole matchers.old) line.now }
    ensures same_matchers { AreSame matchers.old matchers.new }
    ensures steps { AddsAtMost (length (expressions_of matchers.old) * (length line.now + 1))
        meter.old meter.new }
{
    for matcher in matchers.iter_mut() {
        if matcher.is_match(line, meter) {
            return true;
        }
    }
    false
}

/// The first line of a block of whole lines that some matcher matches, by its place without its
/// newline. `whole` is as for [`parts`]. It takes at most one step for each matcher and byte up to
/// that newline, and one more for each matcher, and passes at most as many bytes. If no line is
/// matched, it takes at most one step for each matcher and byte of the block, and passes at most as
/// many bytes.
pub fn next_matched(
    matchers: &mut [Matcher],
    whole: bool,
    block: &[u8],
    meter: &mut Meter,
) -> Option<Span>
    requires alike { AreAlike whole matchers.old }
    requires block { IsBlock block.now }
    ensures reported { FindsSought (sought_of whole matchers.old) (lines_of block.now) result }
    ensures within { IfSome result (λ at. (at.start ≤ at.end) × (at.end < length block.now)) }
    ensures same_matchers { AreSame matchers.old matchers.new }
    ensures steps { AddsAtMost (length (expressions_of matchers.old) * next_cost block.now result)
        meter.old meter.new }
{
    if matchers.len() == 1 {
        return matchers[0].next_matched(block, meter);
    }
    let mut start = 0;
    'lines: loop {
        let Some(end) = line_end(block, start) else {
            return None;
        };
        if is_matched(matchers, whole, &block[start..end], meter) {
            return Some(Span { start, end });
        }
        start = end + 1;
    }
}

/// How many lines of a block of whole lines some matcher matches. `whole` is as for [`parts`]. It
/// takes at most one step for each matcher and byte, and passes at most as many bytes.
pub fn count_matched(matchers: &mut [Matcher], whole: bool, block: &[u8], meter: &mut Meter) -> u64
    requires alike { AreAlike whole matchers.old }
    requires block { IsBlock block.now }
    ensures reported { CountsSought (sought_of whole matchers.old) (lines_of block.now) result }
    ensures same_matchers { AreSame matchers.old matchers.new }
    ensures steps { AddsAtMost (length (expressions_of matchers.old) * length block.now) meter.old
        meter.new }
{
    let mut count: u64 = 0;
    let mut rest = block;
    'lines: loop {
        let Some(at) = next_matched(matchers, whole, rest, meter) else {
            return count;
        };
        count += 1;
        rest = &rest[at.end + 1..];
    }
}
