//! One line: whether it is selected, and what is written for it.
ghost use Rattle.std.specs.Prelude.{◌≡◌, ◌<◌, ◌≤◌, length, IfErr, IfOk, OnErr};
ghost use Rattle.re_search.specs.Working.Matchers.{expressions_of, AreSame, AreAlike};
ghost use Rattle.re_search.specs.Searches.{AddsAtMost};
ghost use Rattle.grep_core.specs.Working.OneLine.{WritesSelected, TakesLine, parts_cost, StopsLine};
ghost use Rattle.grep_core.specs.{Working.OneLine.BreaksSelected, Output.{form, parts}};
ghost use Rattle.grep_core.specs.{Cost.{line_cost, search_cost}, Run.writer};

use crate::options::Form;
use crate::output::request::FileRequest;
use crate::search::selection::is_selected;
use crate::status::SearchFault;
use grep_io::{CountedWrite, WriteFault};
use re_search::{LineParts, Matcher, Meter, next_part};
use std::alloc::AllocError;

/// Makes room for the parts of a line, if they are written.
///
/// Returns `AllocError` if an allocation fails.
#[inline]
pub fn make_room(
    request: &FileRequest,
    line: &[u8],
    line_parts: &mut LineParts,
) -> Result<(), AllocError>
    ensures { IfOk result (λ _. form request.now.options ≡ parts
        → length line.now ≤ line_parts.new.room) }
{
    match request.options.form() {
        Form::Parts => {
            line_parts.make_room(line.len())?;
            Ok(())
        }
        Form::Nothing => Ok(()),
        Form::Names => Ok(()),
        Form::Counts => Ok(()),
        Form::Lines => Ok(()),
        Form::Around(_) => Ok(()),
    }
}

/// Writes the parts of a line, each after the line's head.
fn write_parts<W: CountedWrite>(
    matchers: &mut [Matcher],
    request: &FileRequest,
    number: u64,
    line: &[u8],
    line_parts: &mut LineParts,
    out: &mut W,
    meter: &mut Meter,
) -> Result<(), WriteFault>
    requires alike { AreAlike request.now.options.line_regexp matchers.old }
    requires asked { form request.now.options ≡ parts }
    requires room { length line.now ≤ line_parts.old.room }
    ensures ok { IfOk result
        (λ _. WritesSelected (expressions_of matchers.old) request.now.options request.now.many
        request.now.name.now number line.now (writer W.contents W.failures out.old)
        (writer W.contents W.failures out.new)) }
    ensures err { OnErr result
        (BreaksSelected (expressions_of matchers.old) request.now.options request.now.many
        request.now.name.now number line.now (writer W.contents W.failures out.old)
        (writer W.contents W.failures out.new)) }
    ensures same { AreSame matchers.old matchers.new }
    ensures steps { AddsAtMost
        (search_cost (length (expressions_of matchers.old)) line.now) meter.old meter.new }
{
    line_parts.begin();
    let whole = request.options.line_regexp;
    let mut from = 0;
    while let Some(part) = next_part(matchers, whole, line, from, line_parts, meter) {
        request.write_part(number, line, part, out, b"")?;
        from = part.end;
    }
    Ok(())
}

/// Writes the rows of a selected line, by what the options ask for.
pub fn write_selected<W: CountedWrite>(
    matchers: &mut [Matcher],
    request: &FileRequest,
    number: u64,
    line: &[u8],
    line_parts: &mut LineParts,
    out: &mut W,
    meter: &mut Meter,
) -> Result<(), WriteFault>
    requires alike { AreAlike request.now.options.line_regexp matchers.old }
    requires room { form request.now.options ≡ parts → length line.now ≤ line_parts.old.room }
    ensures ok { IfOk result
        (λ _. WritesSelected (expressions_of matchers.old) request.now.options request.now.many
        request.now.name.now number line.now (writer W.contents W.failures out.old)
        (writer W.contents W.failures out.new)) }
    ensures err { OnErr result
        (BreaksSelected (expressions_of matchers.old) request.now.options request.now.many
        request.now.name.now number line.now (writer W.contents W.failures out.old)
        (writer W.contents W.failures out.new)) }
    ensures same { AreSame matchers.old matchers.new }
    ensures steps { AddsAtMost (parts_cost request.now.options
        (length (expressions_of matchers.old)) line.now) meter.old meter.new }
{
    match request.options.form() {
        Form::Lines => request.write_text(number, line, out, b""),
        Form::Parts => write_parts(matchers, request, number, line, line_parts, out, meter),
        Form::Nothing => Ok(()),
        Form::Names => Ok(()),
        Form::Counts => Ok(()),
        Form::Around(_) => Ok(()),
    }
}

/// Writes the rows of a line, if there are any, and returns whether it is selected. Where there is
/// no room for its parts, nothing is written.
pub fn search_line<W: CountedWrite>(
    matchers: &mut [Matcher],
    request: &FileRequest,
    number: u64,
    line: &[u8],
    line_parts: &mut LineParts,
    out: &mut W,
    meter: &mut Meter,
) -> Result<bool, SearchFault>
    requires alike { AreAlike request.now.options.line_regexp matchers.old }
    requires first { 0 < number }
    ensures ok { IfOk result
        (λ found. TakesLine (expressions_of matchers.old) request.now.options request.now.many
        request.now.name.now number line.now (writer W.contents W.failures out.old)
        (writer W.contents W.failures out.new) found) }
    ensures err { IfErr result
        (StopsLine (expressions_of matchers.old) request.now.options request.now.many
        request.now.name.now number line.now (writer W.contents W.failures out.old)
        (writer W.contents W.failures out.new)) }
    ensures same { AreSame matchers.old matchers.new }
    ensures steps { AddsAtMost (line_cost request.now.options
        (length (expressions_of matchers.old)) line.now) meter.old meter.new }
{
    if !is_selected(matchers, request.options, line, meter) {
        return Ok(false);
    }
    if make_room(request, line, line_parts).is_err() {
        return Err(SearchFault::Memory(number - 1));
    }
    write_selected(matchers, request, number, line, line_parts, out, meter)?;
    Ok(true)
}
