//! The search of one source, with lines around the selected ones.
ghost use Rattle.std.specs.Prelude.{◌≡◌, ◌⊎◌, ◌-◌, ◌≤◌, [], ◌∷◌, ◌++◌, length, Err, IfOk};
ghost use Rattle.std.specs.Prelude.{if◌then◌else◌};
ghost use Rattle.{re_syntax.specs.Lines.lines_of, re_search.specs.Working.Blocks.IsBlock};
ghost use Rattle.re_search.specs.Working.Matchers.{expressions_of, AreAlike, AreSame};
ghost use Rattle.grep_core.specs.{Output.{around, written, form}, Run.writer};
ghost use Rattle.grep_core.specs.Working.Progress.{rows_around, rows_at, last_of, progress_from};
ghost use Rattle.grep_core.specs.Working.{Passed.Waits, ShownLines.ShowGives, Given.SearchGives};
ghost use Rattle.grep_io.specs.{Working.LineReader.OneLeft, Written.Writes, Reading.open_source};

use crate::options::Context;
use crate::output::around::{Progress, Shown};
use crate::output::request::FileRequest;
use crate::output::rows::write_separator;
use crate::search::file::count_found;
use crate::search::held::next_held;
use crate::search::next_line::take_next;
use crate::search::recent::RecentLines;
use crate::search::selection::is_selected;
use crate::status::{FileEnd, FileFound, SearchFault};
use grep_io::{CountedRead, CountedWrite, Lines, ReadFault, Stage, WriteFault};
use re_search::{Matcher, Meter};
use std::alloc::{AllocError, Global};

/// The lines around selected ones of a file: how far they are done, and the last that are not shown.
#[derive(Drop)]
pub struct Surroundings {
    progress: Progress,
    recent: RecentLines,
}

impl Surroundings {
    /// Before the first line of a file; `shown` says whether a line of a file before it is shown.
    pub fn new(alloc: Global, context: Context, shown: bool) -> Surroundings
        ensures { result ≡ record {
          progress = progress_from context shown;
          recent = record { limit = context.before; lines = [] };
        } }
    {
        Surroundings {
            progress: Progress::new(context, shown),
            recent: RecentLines::new(alloc, context.before),
        }
    }
}

// A line that was searched.
#[derive(Clone, Copy)]
struct SearchedLine<'a> {
    selected: bool,
    number: u64,
    text: &'a [u8],
}

// Writes the rows of the lines that wait before the line of this number.
fn write_waiting<W: CountedWrite>(
    request: &FileRequest,
    recent: &RecentLines,
    number: u64,
    out: &mut W,
) -> Result<(), WriteFault>
    requires { length recent.now.lines ≤ number }
    ensures { Writes W.contents W.failures out.old out.new
        (written [] (rows_around request.now.options request.now.many request.now.name.now
        (number - length recent.now.lines) recent.now.lines)) result }
{
    let count = recent.len();
    for k in 0..count {
        let at = number - (count - k) as u64;
        request.write_shown(false, at, recent.line(k), out, b"")?;
    }
    Ok(())
}

// Writes what is shown at a line.
fn write_shown<W: CountedWrite>(
    request: &FileRequest,
    recent: &RecentLines,
    shown: Shown,
    line: &SearchedLine,
    out: &mut W,
) -> Result<(), WriteFault>
    requires { length recent.now.lines ≤ line.now.number }
    ensures { Writes W.contents W.failures out.old out.new
        (written [] (rows_at request.now.options request.now.many request.now.name.now line.now.selected
        shown recent.now.lines line.now.number line.now.text.now)) result }
{
    write_separator(shown.separated, out, b"")?;
    if !shown.itself {
        return Ok(());
    }
    write_waiting(request, recent, line.number, out)?;
    request.write_shown(line.selected, line.number, line.text, out, b"")
}

// Keeps a line that is not shown, and forgets all kept lines if it is shown.
fn keep(recent: &mut RecentLines, shown: bool, line: &[u8]) -> Result<(), AllocError>
    ensures lines { IfOk result (λ _. recent.new.lines ≡ (if shown then []
        else last_of recent.old.limit (recent.old.lines ++ line.now ∷ []))) }
    ensures same_limit { recent.new.limit ≡ recent.old.limit }
{
    if shown {
        recent.clear();
        return Ok(());
    }
    recent.push(line)
}

// Lets whole lines wait that are not shown after a selected one; the last of them are held.
fn wait(block: &[u8], count: u64, surroundings: &mut Surroundings) -> Result<(), AllocError>
    requires block { IsBlock block.now }
    requires counted { count ≡ length (lines_of block.now) }
    requires few { surroundings.old.progress.waiting ≤ surroundings.old.progress.context.before }
    requires due { (count ≡ 0) ⊎ (surroundings.old.progress.left ≡ 0) }
    ensures { IfOk result (λ _. Waits (lines_of block.now) surroundings.old.progress
        surroundings.new.progress surroundings.old.recent surroundings.new.recent) }
{
    if count == 0 {
        return Ok(());
    }
    surroundings.recent.push_block(block)?;
    surroundings.progress.wait(count);
    Ok(())
}

// Writes what is shown at a line, and keeps the line if it is not shown.
fn show_line<W: CountedWrite>(
    request: &FileRequest,
    surroundings: &mut Surroundings,
    line: &SearchedLine,
    out: &mut W,
) -> Result<(), SearchFault>
    requires few { surroundings.old.progress.waiting ≤ surroundings.old.progress.context.before }
    requires held { length surroundings.old.recent.lines ≤ line.now.number }
    ensures { ShowGives request.now.options request.now.many request.now.name.now line.now.selected
        line.now.number line.now.text.now surroundings.old.progress surroundings.new.progress
        surroundings.old.recent surroundings.new.recent (writer W.contents W.failures out.old)
        (writer W.contents W.failures out.new) result }
{
    let at = surroundings.progress.step(line.selected);
    write_shown(request, &surroundings.recent, at, line, out)?;
    if keep(&mut surroundings.recent, at.itself, line.text).is_err() {
        return Err(SearchFault::Memory(line.number));
    }
    Ok(())
}

/// Searches the lines of a reader, from the first on: writes the rows of the selected lines and of
/// those around them. Buffered output is sent before a read, which may wait.
pub fn search_around<R: CountedRead, W: CountedWrite>(
    surroundings: &mut Surroundings,
    lines: &mut Lines<R>,
    matchers: &mut [Matcher],
    request: &FileRequest,
    out: &mut W,
    meter: &mut Meter,
) -> Result<FileFound, SearchFault>
    requires none_ahead { lines.old.lines.ahead ≡ [] }
    requires still_open { lines.old.lines.stage ≡ Stage.Open }
    requires none_numbered { lines.old.number ≡ 0 }
    requires is_asked { form request.now.options ≡ around surroundings.old.progress.context }
    requires alike { AreAlike request.now.options.line_regexp matchers.old }
    requires none_done { surroundings.old.progress
        ≡ progress_from surroundings.old.progress.context surroundings.old.progress.shown }
    requires none_after { surroundings.old.recent
        ≡ record { limit = surroundings.old.progress.context.before; lines = [] } }
    ensures given { SearchGives (expressions_of matchers.old) request.now.options
        request.now.many surroundings.old.progress.shown
        (open_source request.now.name.now (R.remaining lines.old.lines.reader))
        (OneLeft (R.remaining lines.new.lines.reader))
        (R.failures lines.old.lines.reader) (R.failures lines.new.lines.reader)
        (writer W.contents W.failures out.old) (writer W.contents W.failures out.new)
        meter.old meter.new result }
    ensures same { AreSame matchers.old matchers.new }
{
    let mut selected: u64 = 0;
    'lines: loop {
        let asked = (surroundings.progress.left == 0) & !request.options.invert_match;
        let stretch = next_held(lines, matchers, request.options.line_regexp, asked, meter);
        let (bytes, count) = (stretch.bytes, stretch.count);
        if wait(stretch.before, stretch.before_count, surroundings).is_err() {
            return Err(SearchFault::Memory(lines.number()));
        }
        if let Some(text) = stretch.line {
            let line = SearchedLine {
                selected: true,
                number: lines.number() + count,
                text,
            };
            show_line(request, surroundings, &line, out)?;
            selected = count_found(selected, true);
            lines.pass(bytes, count);
            continue 'lines;
        }
        lines.pass(bytes, count);
        match take_next(lines, out) {
            Ok(None) => {}
            Ok(Some(end)) => return Ok(FileFound { end, selected }),
            Err(fault) => return Err(fault),
        }
        let number = lines.number();
        let text = lines.line();
        let found = is_selected(matchers, request.options, text, meter);
        let line = SearchedLine {
            selected: found,
            number,
            text,
        };
        show_line(request, surroundings, &line, out)?;
        selected = count_found(selected, found);
    }
}
