//! The search of one source.
ghost use Rattle.std.specs.Prelude.{[], ◌^◌, ◌-◌, false, ◌+◌, Err, length, ◌<◌, if◌then◌else◌, ◌≡◌};
ghost use Rattle.re_search.specs.Working.Matchers.{expressions_of, AreSame, AreAlike};
ghost use Rattle.grep_core.specs.{Sources.{source_at, Returns}, Output.{written, form}, Run.writer};
ghost use Rattle.grep_core.specs.{Run.devices, Working.{OneLine.IsPlain, Given.SearchGives}};
ghost use Rattle.grep_core.specs.Working.Searched.{summary_as, EndsSource, SourceGives};
ghost use Rattle.grep_io.specs.{Reading.open_source, Working.LineReader.OneLeft, Written.Writes};

use crate::output::request::FileRequest;
use crate::output::summary::{report_fault, write_summary};
use crate::search::around::{Surroundings, search_around};
use crate::search::count::count_lines;
use crate::search::held::write_held;
use crate::search::line::search_line;
use crate::search::next_line::take_next;
use crate::search::requests::{SearchRequest, SourceRequest};
use crate::sources::Sources;
use crate::status::{FileEnd, FileFound, RunFault, SearchFault};
use grep_io::{CountedRead, CountedWrite, Lines, ReadFault, Stage, WriteFault};
use re_search::{LineParts, Matcher, Meter};

/// One more, if a line was found.
pub fn count_found(selected: u64, found: bool) -> u64
    requires { selected < 2 ^ 64 - 1 }
    ensures { result ≡ (if found then selected + 1 else selected) }
{
    if found { selected + 1 } else { selected }
}

/// Searches the lines of a reader, from the first on: writes the rows of the selected lines, and
/// under `-q` and `-l` stops at the first. Buffered output is sent before a read, which may wait.
fn search_lines<R: CountedRead, W: CountedWrite>(
    lines: &mut Lines<R>,
    matchers: &mut [Matcher],
    request: &FileRequest,
    line_parts: &mut LineParts,
    out: &mut W,
    meter: &mut Meter,
) -> Result<FileFound, SearchFault>
    requires none_ahead { lines.old.lines.ahead ≡ [] }
    requires still_open { lines.old.lines.stage ≡ Stage.Open }
    requires none_numbered { lines.old.number ≡ 0 }
    requires plain { IsPlain (form request.now.options) }
    requires alike { AreAlike request.now.options.line_regexp matchers.old }
    ensures given { SearchGives (expressions_of matchers.old) request.now.options
        request.now.many false (open_source request.now.name.now (R.remaining lines.old.lines.reader))
        (OneLeft (R.remaining lines.new.lines.reader))
        (R.failures lines.old.lines.reader) (R.failures lines.new.lines.reader)
        (writer W.contents W.failures out.old) (writer W.contents W.failures out.new)
        meter.old meter.new result }
    ensures same { AreSame matchers.old matchers.new }
{
    let early = request.options.leaves_early();
    let bare = request.writes_bare_lines();
    let mut selected: u64 = 0;
    'lines: loop {
        let held = write_held(lines, matchers, request, bare, line_parts, out, meter)?;
        lines.pass(held.bytes, held.count);
        selected = selected.saturating_add(held.found);
        if (held.found > 0) & early {
            let end = FileEnd::Left;
            return Ok(FileFound { end, selected });
        }
        if held.goes_on {
            continue 'lines;
        }
        match take_next(lines, out) {
            Ok(None) => {}
            Ok(Some(end)) => return Ok(FileFound { end, selected }),
            Err(fault) => return Err(fault),
        }
        let number = lines.number();
        let line = lines.line();
        let found = search_line(matchers, request, number, line, line_parts, out, meter)?;
        selected = count_found(selected, found);
        if found & early {
            let end = FileEnd::Left;
            return Ok(FileFound { end, selected });
        }
    }
}

/// Searches the lines of a reader, from the first on, and writes the rows that the options ask for.
fn search_opened<R: CountedRead, W: CountedWrite>(
    source: &SourceRequest,
    lines: &mut Lines<R>,
    matchers: &mut [Matcher],
    request: &FileRequest,
    line_parts: &mut LineParts,
    out: &mut W,
    meter: &mut Meter,
) -> Result<FileFound, SearchFault>
    requires none_ahead { lines.old.lines.ahead ≡ [] }
    requires still_open { lines.old.lines.stage ≡ Stage.Open }
    requires none_numbered { lines.old.number ≡ 0 }
    requires alike { AreAlike request.now.options.line_regexp matchers.old }
    ensures given { SearchGives (expressions_of matchers.old) request.now.options
        request.now.many source.now.shown (open_source request.now.name.now (R.remaining lines.old.lines.reader))
        (OneLeft (R.remaining lines.new.lines.reader))
        (R.failures lines.old.lines.reader) (R.failures lines.new.lines.reader)
        (writer W.contents W.failures out.old) (writer W.contents W.failures out.new)
        meter.old meter.new result }
    ensures same { AreSame matchers.old matchers.new }
{
    if request.options.only_counts() {
        return count_lines(lines, matchers, request, out, meter);
    }
    let Some(context) = request.options.shown_around() else {
        return search_lines(lines, matchers, request, line_parts, out, meter);
    };
    let mut surroundings = Surroundings::new(source.search.alloc, context, source.shown);
    search_around(&mut surroundings, lines, matchers, request, out, meter)
}

/// Writes what follows the rows of a source's lines. If a message about the source is due, buffered
/// output is sent first, so that output and messages are in order if both are sent to one place.
fn end_output<W: CountedWrite>(
    request: &FileRequest,
    found: FileFound,
    out: &mut W,
) -> Result<(), WriteFault>
    ensures { Writes W.contents W.failures out.old out.new (written []
        (summary_as (form request.now.options) request.now.many request.now.name.now found.end
        found.selected)) result }
{
    write_summary(request, found, out, b"")?;
    if request.options.no_messages | !found.end.is_fault() {
        return Ok(());
    }
    out.flush()
}

/// Writes what is due for a source once its lines were searched: what follows their rows, and the
/// message, or why the run is given up.
fn end_source<W: CountedWrite, N: CountedWrite>(
    request: &FileRequest,
    place: usize,
    found: Result<FileFound, SearchFault>,
    out: &mut W,
    messages: &mut N,
) -> Result<FileFound, RunFault>
    ensures { EndsSource request.now.options request.now.many request.now.name.now place
        (writer W.contents W.failures out.old) (writer W.contents W.failures out.new)
        (writer N.contents N.failures messages.old) (writer N.contents N.failures messages.new)
        found result }
{
    let found = match found {
        Ok(found) => found,
        Err(SearchFault::Write) => return Err(RunFault::Write),
        Err(SearchFault::Memory(lines)) => return Err(RunFault::Memory {
            source: place,
            lines,
        }),
    };
    match end_output(request, found, out) {
        Ok(()) => {}
        Err(WriteFault) => return Err(RunFault::Write),
    }
    let silent = request.options.no_messages;
    match report_fault(silent, request.name, found.end, messages, b"") {
        Ok(()) => Ok(found),
        Err(WriteFault) => Err(RunFault::MessageWrite),
    }
}

/// Opens the next source, searches its lines and returns its reader; writes its output and its
/// message.
pub fn search_source<S: Sources, W: CountedWrite, N: CountedWrite>(
    source: &SourceRequest,
    sources: &mut S,
    matchers: &mut [Matcher],
    line_parts: &mut LineParts,
    out: &mut W,
    messages: &mut N,
    meter: &mut Meter,
) -> Result<FileFound, RunFault>
    requires place { source.now.place < length (S.listed sources.old) }
    requires in_order { S.stands_at sources.old source.now.place }
    requires alike { AreAlike source.now.search.now.options.line_regexp matchers.old }
    ensures listed { S.listed sources.new ≡ S.listed sources.old }
    ensures next { S.stands_at sources.new (source.now.place + 1) }
    ensures same_loan { S.loan sources.new ≡ S.loan sources.old }
    ensures given { SourceGives (expressions_of matchers.old)
        source.now.search.now.options source.now.many source.now.shown
        (source_at (S.listed sources.old) source.now.place)
        (Returns S.returned_readers sources.old sources.new) source.now.place
        (devices (writer W.contents W.failures out.old) (writer N.contents N.failures messages.old)
        (S.failures sources.old) meter.old)
        (devices (writer W.contents W.failures out.new) (writer N.contents N.failures messages.new)
        (S.failures sources.new) meter.new) result }
    ensures same { AreSame matchers.old matchers.new }
{
    let place = source.place;
    let Some(reader) = sources.open(place) else {
        let missing = source.of_file(sources.name(place));
        let end = FileEnd::Missing;
        let found = Ok(FileFound { end, selected: 0 });
        return end_source(&missing, place, found, out, messages);
    };
    let mut lines = match Lines::new(source.search.alloc, reader) {
        Ok(lines) => lines,
        Err(reader) => {
            sources.close(reader);
            return Err(RunFault::Memory {
                source: place,
                lines: 0,
            });
        }
    };
    let request = source.of_file(sources.name(place));
    let found = search_opened(
        source, &mut lines, matchers, &request, line_parts, out, meter,
    );
    let ended = end_source(&request, place, found, out, messages);
    sources.close(lines.into_reader());
    ended
}
