//! All parts of one line.
ghost use Rattle.std.specs.Prelude.{◌≤◌, length};
ghost use Rattle.{re_meter.specs.Meters.AddsAtMost, gaxtrel.specs.Calls.{PutsParts, line_cost}};
ghost use Rattle.re_search.specs.Working.Matchers.{AreAlike, AreSame, expressions_of};
ghost use Rattle.re_search.specs.Working.Sought.{sought_of};

use crate::array::put;
use crate::part::{GaxtrelPart, part_of};
use re_search::{LineParts, Matcher, Meter, next_part};

/// How many parts the line has from a place on. The first ones are written over the array.
pub(crate) fn put_parts(
    matchers: &mut [Matcher],
    whole: bool,
    line: &[u8],
    from: usize,
    learned: &mut LineParts,
    parts: &mut [GaxtrelPart],
    meter: &mut Meter,
) -> usize
    requires within { from ≤ length line.now }
    requires room { length line.now ≤ learned.old.room }
    requires alike { AreAlike whole matchers.old }
    ensures put { PutsParts (sought_of whole matchers.old)
        line.now from parts.old parts.new result }
    ensures same { AreSame matchers.old matchers.new }
    ensures steps { AddsAtMost (line_cost (length (expressions_of matchers.old)) line.now)
        meter.old meter.new }
{
    learned.begin();
    let mut at = from;
    let mut count: usize = 0;
    while let Some(part) = next_part(matchers, whole, line, at, learned, meter) {
        put(parts, count, part_of(part));
        count += 1;
        at = part.end;
    }
    count
}
