//! The search of one source, whose selected lines are only counted.
ghost use Rattle.std.specs.Prelude.{◌≡◌, ◌-◌, ◌≤◌, [], Err, false, if◌then◌else◌};
ghost use Rattle.re_search.specs.Working.Matchers.{AreAlike, AreSame, expressions_of};
ghost use Rattle.grep_core.specs.{Output.{counts, form}, Run.writer, Working.Given.SearchGives};
ghost use Rattle.grep_io.specs.{Reading.open_source, Working.LineReader.OneLeft};

use crate::options::Options;
use crate::output::request::FileRequest;
use crate::search::file::count_found;
use crate::search::next_line::take_next;
use crate::search::selection::is_selected;
use crate::status::{FileEnd, FileFound, SearchFault};
use grep_io::{CountedRead, CountedWrite, Lines, ReadFault, Stage};
use re_search::{Matcher, Meter, count_matched};

// How many of `count` lines are selected, if `matched` are matched (XCU grep, option `-v`).
fn count_selected(options: &Options, count: u64, matched: u64) -> u64
    requires { matched ≤ count }
    ensures { result ≡ (if options.now.invert_match then count - matched else matched) }
{
    if options.invert_match {
        count - matched
    } else {
        matched
    }
}

/// Searches the lines of a reader, from the first on, where only the number of selected lines is
/// written, and that after the last line. Buffered output is sent before a read, which may wait.
pub fn count_lines<R: CountedRead, W: CountedWrite>(
    lines: &mut Lines<R>,
    matchers: &mut [Matcher],
    request: &FileRequest,
    out: &mut W,
    meter: &mut Meter,
) -> Result<FileFound, SearchFault>
    requires none_ahead { lines.old.lines.ahead ≡ [] }
    requires still_open { lines.old.lines.stage ≡ Stage.Open }
    requires none_numbered { lines.old.number ≡ 0 }
    requires is_asked { form request.now.options ≡ counts }
    requires alike { AreAlike request.now.options.line_regexp matchers.old }
    ensures given { SearchGives (expressions_of matchers.old) request.now.options
        request.now.many false (open_source request.now.name.now (R.remaining lines.old.lines.reader))
        (OneLeft (R.remaining lines.new.lines.reader))
        (R.failures lines.old.lines.reader) (R.failures lines.new.lines.reader)
        (writer W.contents W.failures out.old) (writer W.contents W.failures out.new)
        meter.old meter.new result }
    ensures same { AreSame matchers.old matchers.new }
{
    let options = &request.options;
    let mut selected: u64 = 0;
    'lines: loop {
        let block = lines.ready_lines();
        let (bytes, count) = (block.bytes.len(), block.count);
        let matched = count_matched(matchers, options.line_regexp, block.bytes, meter);
        lines.pass(bytes, count);
        selected = selected.saturating_add(count_selected(options, count, matched));
        match take_next(lines, out) {
            Ok(None) => {}
            Ok(Some(end)) => return Ok(FileFound { end, selected }),
            Err(fault) => return Err(fault),
        }
        let found = is_selected(matchers, request.options, lines.line(), meter);
        selected = count_found(selected, found);
    }
}
