//! The matched lines of a text.
ghost use Rattle.std.specs.Prelude.{◌≡◌, ◌*◌, ◌+◌, ◌-◌, ◌<◌, ◌≤◌, ◌^◌, length};
ghost use Rattle.{re_meter.specs.Meters.AddsAtMost, re_search.specs.Working.Sought.sought_of};
ghost use Rattle.re_search.specs.Working.Matchers.{AreAlike, AreSame};
ghost use Rattle.gaxtrel.specs.Calls.{PutsLines};

use crate::text_search::next_in_text;
use grep_io::count_newlines;
use re_search::{Matcher, Meter};

/// A line of a text: from its first byte to the byte after its last, without its newline; and its
/// number.
#[repr(C)]
#[derive(Clone, Copy, Drop)]
pub struct GaxtrelLine {
    /// The place of its first byte.
    pub start: usize,
    /// The place after its last byte.
    pub end: usize,
    /// Its number; 2^64 - 1 for a greater one.
    pub number: u64,
}

/// How many of the first matched lines from a place on were written over the array.
pub(crate) fn put_lines(
    matchers: &mut [Matcher],
    whole: bool,
    text: &[u8],
    from: usize,
    number: u64,
    lines: &mut [GaxtrelLine],
    meter: &mut Meter,
) -> usize
    requires { AreAlike whole matchers.old }
    ensures put { PutsLines (sought_of whole matchers.old) text.now from number lines.old lines.new
        result meter.old meter.new }
    ensures same { AreSame matchers.old matchers.new }
{
    let mut at = from;
    let mut number = number;
    let mut count: usize = 0;
    while count < lines.len() {
        if at >= text.len() {
            return count;
        }
        let Some(next) = next_in_text(matchers, whole, &text[at..], meter) else {
            return count;
        };
        number = number.saturating_add(count_newlines(&text[at..at + next.start]));
        lines[count] = GaxtrelLine {
            start: at + next.start,
            end: at + next.end,
            number,
        };
        number = number.saturating_add(1);
        count += 1;
        at += next.end + 1;
    }
    count
}
