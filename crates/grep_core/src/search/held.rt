//! The search of the lines that are held in one piece, and the rows that are written for them.
ghost use Rattle.std.specs.Prelude.{◌≡◌, ◌*◌, ◌+◌, ◌++◌, ◌^◌, ◌<◌, ◌≤◌, ◌⊎◌, List, length, false};
ghost use Rattle.std.specs.Prelude.{true, IfErr, IfOk, IsTrue, slice_range};
ghost use Rattle.{re_syntax.specs.{Bytes.Text, Lines.{lines_of, terminated}}, re_search.specs.Meters.Steps};
ghost use Rattle.re_search.specs.{Searches.AddsAtMost, Working.{Blocks.IsBlock, Matchers.AreSame}};
ghost use Rattle.re_search.specs.Working.{Matchers.{expressions_of, AreAlike}, Sought.sought_of};
ghost use Rattle.grep_core.specs.Working.SearchedBlocks.{WritesChosen, IsNextOf, IsDivided};
ghost use Rattle.grep_core.specs.Working.{OneLine.IsBare, BlockRows.{SearchesLines, TakesLines}};
ghost use Rattle.grep_core.specs.{Working.BlockRows.{StopsLines, TakesHeld, StopsHeld}, Run.writer};
ghost use Rattle.grep_io.specs.Written.{GoesOut, StopsWithin};

use crate::output::request::FileRequest;
use crate::search::line::{make_room, write_selected};
use crate::search::searched_block::{SearchedBlock, SearchedLines};
use crate::status::SearchFault;
use grep_io::{CountedRead, CountedWrite, Lines, WriteFault, count_newlines, push_all};
use re_search::{LineParts, Matcher, Meter, next_matched};

/// Searches the lines that are held in one piece up to the first that some matcher matches. None is
/// searched where that is not asked, and where not all of them can be numbered.
pub fn next_held<'a, R: CountedRead>(
    lines: &'a Lines<R>,
    matchers: &mut [Matcher],
    whole: bool,
    asked: bool,
    meter: &mut Meter,
) -> SearchedBlock<'a>
    requires { AreAlike whole matchers.old }
    ensures divided { (before : List Text) × (all : List Text)
        × IsDivided (sought_of whole matchers.old) result before all × IsNextOf lines.now all }
    ensures none { asked ≡ false → result.count ≡ 0 }
    ensures same { AreSame matchers.old matchers.new }
    ensures steps { AddsAtMost (length (expressions_of matchers.old) * result.bytes)
        meter.old meter.new }
{
    let block = lines.ready();
    if !lines.may_number(block.len()) || !asked {
        return SearchedBlock {
            before: &[],
            before_count: 0,
            line: None,
            bytes: 0,
            count: 0,
        };
    }
    let Some(at) = next_matched(matchers, whole, block, meter) else {
        let count = count_newlines(block);
        return SearchedBlock {
            before: block,
            before_count: count,
            line: None,
            bytes: block.len(),
            count,
        };
    };
    let before = &block[..at.start];
    let before_count = count_newlines(before);
    SearchedBlock {
        before,
        before_count,
        line: Some(&block[at.start..at.end]),
        bytes: at.end + 1,
        count: before_count + 1,
    }
}

// Writes a run of lines of a block, if the next line to be written doesn't follow it, and returns where
// the run begins that this line goes on.
#[inline(always)]
fn write_run<W: CountedWrite>(
    block: &[u8],
    from: usize,
    to: usize,
    next: usize,
    out: &mut W,
) -> Result<usize, WriteFault>
    requires ordered { from ≤ to }
    requires after { to ≤ next }
    requires within { to ≤ length block.now }
    ensures ok { IfOk result (λ run. (run ≤ next) × (sent : Text)
        × (sent ++ slice_range block.now run next ≡ slice_range block.now from to)
        × GoesOut W.contents W.failures out.old out.new sent) }
    ensures err { IfErr result (λ _. StopsWithin W.contents W.failures out.old out.new
        (slice_range block.now from to)) }
{
    if to == next {
        return Ok(from);
    }
    push_all(out, &block[from..to])?;
    Ok(next)
}

// Writes the matched lines of a block as they are, neighbouring ones at once, and returns how many
// they are.
fn write_matched<W: CountedWrite>(
    block: &[u8],
    matchers: &mut [Matcher],
    whole: bool,
    out: &mut W,
    meter: &mut Meter,
) -> Result<u64, WriteFault>
    requires alike { AreAlike whole matchers.old }
    requires block { IsBlock block.now }
    ensures written { WritesChosen W.contents W.failures false (sought_of whole matchers.old)
        block.now out.old out.new result }
    ensures same { AreSame matchers.old matchers.new }
    ensures steps { AddsAtMost (length (expressions_of matchers.old) * length block.now)
        meter.old meter.new }
{
    let mut found: u64 = 0;
    let mut run = 0;
    let mut start = 0;
    'lines: loop {
        let Some(at) = next_matched(matchers, whole, &block[start..], meter) else {
            push_all(out, &block[run..start])?;
            return Ok(found);
        };
        run = write_run(block, run, start, start + at.start, out)?;
        start += at.end + 1;
        found += 1;
    }
}

// Writes the other lines of a block, which has `count` lines, as they are, and returns how many they
// are.
fn write_others<W: CountedWrite>(
    block: &[u8],
    count: u64,
    matchers: &mut [Matcher],
    whole: bool,
    out: &mut W,
    meter: &mut Meter,
) -> Result<u64, WriteFault>
    requires alike { AreAlike whole matchers.old }
    requires block { IsBlock block.now }
    requires count { count ≡ length (lines_of block.now) }
    ensures written { WritesChosen W.contents W.failures true (sought_of whole matchers.old)
        block.now out.old out.new result }
    ensures same { AreSame matchers.old matchers.new }
    ensures steps { AddsAtMost (length (expressions_of matchers.old) * length block.now)
        meter.old meter.new }
{
    let mut others = count;
    let mut start = 0;
    'lines: loop {
        let Some(at) = next_matched(matchers, whole, &block[start..], meter) else {
            push_all(out, &block[start..])?;
            return Ok(others);
        };
        push_all(out, &block[start..start + at.start])?;
        others -= 1;
        start += at.end + 1;
    }
}

// Writes the selected lines of a block, which has `count` lines, as they are, and returns how many they
// are.
#[inline(always)]
fn write_chosen<W: CountedWrite>(
    block: &[u8],
    count: u64,
    matchers: &mut [Matcher],
    invert: bool,
    whole: bool,
    out: &mut W,
    meter: &mut Meter,
) -> Result<u64, WriteFault>
    requires alike { AreAlike whole matchers.old }
    requires block { IsBlock block.now }
    requires count { count ≡ length (lines_of block.now) }
    ensures written { WritesChosen W.contents W.failures invert (sought_of whole matchers.old)
        block.now out.old out.new result }
    ensures same { AreSame matchers.old matchers.new }
    ensures steps { AddsAtMost (length (expressions_of matchers.old) * length block.now)
        meter.old meter.new }
{
    if invert {
        return write_others(block, count, matchers, whole, out, meter);
    }
    write_matched(block, matchers, whole, out, meter)
}

/// Writes the rows of the selected lines of a stretch, and returns how many they are. `number` lines
/// are before it. Its lines are not searched again. Under `-v` its lines before the matched one are
/// selected, and are written as they are. Where there is no room for the parts of the matched line,
/// nothing is written.
pub fn write_searched<W: CountedWrite>(
    stretch: &SearchedBlock,
    matchers: &mut [Matcher],
    request: &FileRequest,
    number: u64,
    line_parts: &mut LineParts,
    out: &mut W,
    meter: &mut Meter,
) -> Result<u64, SearchFault>
    requires alike { AreAlike request.now.options.line_regexp matchers.old }
    requires bare { request.now.options.invert_match ≡ true → (stretch.now.count ≡ 0)
        ⊎ IsBare request.now.options request.now.many }
    requires few { number + stretch.now.count < 2 ^ 64 }
    ensures ok { (before : List Text) (all : List Text)
        → IsDivided (sought_of request.now.options.line_regexp matchers.old) stretch.now before all → IfOk result
        (λ found. TakesLines (expressions_of matchers.old) request.now.options
        request.now.many request.now.name.now (number + 1) all
        (writer W.contents W.failures out.old) (writer W.contents W.failures out.new) found) }
    ensures err { (before : List Text) (all : List Text)
        → IsDivided (sought_of request.now.options.line_regexp matchers.old) stretch.now before all → IfErr result
        (StopsLines (expressions_of matchers.old) request.now.options
        request.now.many request.now.name.now (number + 1) all
        (writer W.contents W.failures out.old) (writer W.contents W.failures out.new)) }
    ensures same { AreSame matchers.old matchers.new }
    ensures steps { (before : List Text) (all : List Text)
        → IsDivided (sought_of request.now.options.line_regexp matchers.old) stretch.now before all
        → (began : Steps) → AddsAtMost (length (expressions_of matchers.old)
        * length (terminated all)) began meter.old → SearchesLines request.now.options
        (length (expressions_of matchers.old)) all began meter.new }
{
    if request.options.invert_match {
        push_all(out, stretch.before)?;
        return Ok(stretch.before_count);
    }
    let Some(line) = stretch.line else {
        return Ok(0);
    };
    if make_room(request, line, line_parts).is_err() {
        return Err(SearchFault::Memory(number));
    }
    let last = number + stretch.count;
    write_selected(matchers, request, last, line, line_parts, out, meter)?;
    Ok(1)
}

/// Searches lines that are held in one piece, and writes the rows of the selected ones. Where these
/// are the lines as they are, all lines of the piece are searched; else none after the first that is
/// matched. `bare` says whether the rows are the lines as they are.
#[inline(always)]
pub fn write_held<R: CountedRead, W: CountedWrite>(
    lines: &Lines<R>,
    matchers: &mut [Matcher],
    request: &FileRequest,
    bare: bool,
    line_parts: &mut LineParts,
    out: &mut W,
    meter: &mut Meter,
) -> Result<SearchedLines, SearchFault>
    requires alike { AreAlike request.now.options.line_regexp matchers.old }
    requires bare { IsTrue bare → IsBare request.now.options request.now.many }
    ensures ok { IfOk result (TakesHeld (expressions_of matchers.old)
        request.now.options request.now.many request.now.name.now lines.now
        (writer W.contents W.failures out.old) (writer W.contents W.failures out.new)
        meter.old meter.new) }
    ensures err { IfErr result (StopsHeld (expressions_of matchers.old)
        request.now.options request.now.many request.now.name.now lines.now
        (writer W.contents W.failures out.old) (writer W.contents W.failures out.new)
        meter.old meter.new) }
    ensures same { AreSame matchers.old matchers.new }
{
    let invert = request.options.invert_match;
    let whole = request.options.line_regexp;
    let block = lines.ready();
    if bare && lines.may_number(block.len()) {
        let count = count_newlines(block);
        let found = write_chosen(block, count, matchers, invert, whole, out, meter)?;
        return Ok(SearchedLines {
            bytes: block.len(),
            count,
            found,
            goes_on: false,
        });
    }
    let stretch = next_held(lines, matchers, whole, !invert | bare, meter);
    let number = lines.number();
    let found = write_searched(&stretch, matchers, request, number, line_parts, out, meter)?;
    Ok(SearchedLines {
        bytes: stretch.bytes,
        count: stretch.count,
        found,
        goes_on: stretch.line.is_some(),
    })
}
