//! What several matchers find in the lines of a text, the last of which may lack its newline.
ghost use Rattle.std.specs.Prelude.{◌*◌, ◌≤◌, IfSome, length, drop, ⊤};
ghost use Rattle.{re_syntax.specs.Lines.lines_of, re_meter.specs.Meters.AddsAtMost};
ghost use Rattle.{re_trees.specs.Lines.HasNoNewline, re_runs.specs.Working.Blocks.PassesAll};
ghost use Rattle.re_search.specs.Working.Sought.{CountsSought, FindsSought, sought_of};
ghost use Rattle.re_search.specs.Working.Matchers.{AreAlike, AreSame, expressions_of};
ghost use Rattle.gaxtrel.specs.Calls.{bytes_to_next, line_cost};

use re_runs::line_start;
use re_search::{Matcher, Meter, Span, count_matched, is_matched, next_matched};

/// The first line of a text that some matcher matches.
pub(crate) fn next_in_text(
    matchers: &mut [Matcher],
    whole: bool,
    text: &[u8],
    meter: &mut Meter,
) -> Option<Span>
    requires { AreAlike whole matchers.old }
    ensures reported { FindsSought (sought_of whole matchers.old) (lines_of text.now) result }
    ensures within { IfSome result (λ at. (at.start ≤ at.end) × (at.end ≤ length text.now)) }
    ensures same { AreSame matchers.old matchers.new }
    ensures steps { AddsAtMost
        (length (expressions_of matchers.old) * bytes_to_next text.now result) meter.old meter.new }
{
    let cut = last_line(text);
    let found = next_matched(matchers, whole, &text[..cut], meter);
    if let Some(at) = found {
        return Some(at);
    }
    if cut >= text.len() {
        return None;
    }
    if is_matched(matchers, whole, &text[cut..], meter) {
        return Some(Span {
            start: cut,
            end: text.len(),
        });
    }
    None
}

/// How many lines of a text some matcher matches.
pub(crate) fn count_in_text(
    matchers: &mut [Matcher],
    whole: bool,
    text: &[u8],
    meter: &mut Meter,
) -> u64
    requires { AreAlike whole matchers.old }
    ensures reported { CountsSought (sought_of whole matchers.old) (lines_of text.now) result }
    ensures same { AreSame matchers.old matchers.new }
    ensures steps { AddsAtMost (line_cost (length (expressions_of matchers.old)) text.now)
        meter.old meter.new }
{
    let cut = last_line(text);
    let count = count_matched(matchers, whole, &text[..cut], meter);
    if cut >= text.len() {
        return count;
    }
    if is_matched(matchers, whole, &text[cut..], meter) {
        return count + 1;
    }
    count
}

/// Where the last line of a text begins, which need not end with a newline.
pub(crate) fn last_line(text: &[u8]) -> usize
    ensures lines { PassesAll (λ _. ⊤) text.now result }
    ensures last { HasNoNewline (drop result text.now) }
{
    line_start(text, text.len())
}
