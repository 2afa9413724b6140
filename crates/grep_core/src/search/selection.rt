//! Whether a line is selected by several matchers.
ghost use Rattle.std.specs.Prelude.{length, ◌↔◌, IsTrue};
ghost use Rattle.re_search.specs.Working.Matchers.{AreSame, expressions_of, AreAlike};
ghost use Rattle.{re_search.specs.Searches.AddsAtMost, grep_core.specs.Cost.search_cost};
ghost use Rattle.grep_core.specs.Files.{Selected};

use crate::options::Options;
use re_search::{Matcher, Meter, is_matched};

/// Whether grep selects the line: some matcher matches it, and under `-v` none does (XCU grep,
/// DESCRIPTION and option `-v`).
#[inline(always)]
pub fn is_selected(
    matchers: &mut [Matcher],
    options: Options,
    line: &[u8],
    meter: &mut Meter,
) -> bool
    requires alike { AreAlike options.line_regexp matchers.old }
    ensures reported { IsTrue result ↔ Selected (expressions_of matchers.old) options line.now }
    ensures same { AreSame matchers.old matchers.new }
    ensures steps { AddsAtMost
        (search_cost (length (expressions_of matchers.old)) line.now) meter.old meter.new }
{
    let matched = is_matched(matchers, options.line_regexp, line, meter);
    options.selects(matched)
}
