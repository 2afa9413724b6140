//! Which of several matchers match one line.
ghost use Rattle.std.specs.Prelude.{◌≡◌, ◌+◌, ◌<◌, ◌≤◌, ◌^◌, MatchBool, length, set};
ghost use Rattle.{re_meter.specs.Meters.AddsAtMost, re_search.specs.Working.Sought.sought_of};
ghost use Rattle.re_search.specs.Working.Matchers.{AreAlike, AreSame, expressions_of};
ghost use Rattle.gaxtrel.specs.Calls.{line_cost, PutsNumbers};

use crate::array::put;
use re_match::LineMatch;
use re_search::{Matcher, Meter};

/// How many of the matchers match the line. The numbers of the first ones are written over the
/// array.
pub(crate) fn put_numbers(
    matchers: &mut [Matcher],
    _whole: bool,
    line: &[u8],
    numbers: &mut [usize],
    meter: &mut Meter,
) -> usize
    requires { AreAlike _whole matchers.old }
    ensures put { PutsNumbers (sought_of _whole matchers.old)
        line.now numbers.old numbers.new result }
    ensures same { AreSame matchers.old matchers.new }
    ensures steps { AddsAtMost (line_cost (length (expressions_of matchers.old)) line.now)
        meter.old meter.new }
{
    let mut count = 0;
    let mut number = 0;
    for matcher in matchers.iter_mut() {
        let matched = matcher.is_match(line, meter);
        count = put_if(matched, numbers, count, number);
        number += 1;
    }
    count
}

// How many numbers there are, with this one if a pattern with it is matched.
fn put_if(matched: bool, numbers: &mut [usize], count: usize, number: usize) -> usize
    requires { count < 2 ^ 63 }
    ensures few { result ≤ count + 1 }
    ensures put { MatchBool matched
        ((numbers.new ≡ set numbers.old count number) × (result ≡ count + 1))
        ((numbers.new ≡ numbers.old) × (result ≡ count)) }
{
    if !matched {
        return count;
    }
    put(numbers, count, number);
    count + 1
}
