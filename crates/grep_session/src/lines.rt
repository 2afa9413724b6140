//! What is written for the lines of one file.
ghost use Rattle.std.specs.Prelude.{◌≡◌, ◌+◌, ◌^◌, ◌<◌, All, List, [], length, map, get_or};
ghost use Rattle.{re_syntax.specs.Expression.Expression, grep_core.specs.Output.{form, written}};
ghost use Rattle.grep_core.specs.{Written.Writes, Working.{Handed.file_so_far, OneLine.LineRowsOf}};
ghost use Rattle.line_chunks.specs.Working.Chunks.{all_of, line_text, no_line};
ghost use Rattle.grep_session.specs.Working.{Kept.IsKept, Report.{OnLine, PartsFit, part_rows}};
ghost use Rattle.grep_session.specs.Working.Report.{around_rows, place_rows, WritesGroups};

use crate::counts::find_selected;
use crate::kept::FileLines;
use crate::layout::Layout;
use crate::shown::{context_of, next_shown};
use crate::verdicts::is_selected;
use grep_core::{CountedWrite, Form, WriteFault, write_separator};
use re_search::Span;

/// Writes the parts of a line.
fn write_parts<W: CountedWrite>(
    layout: &Layout,
    number: u64,
    text: &[u8],
    spans: &[Span],
    out: &mut W,
) -> Result<(), WriteFault>
    requires { All (OnLine text.now) spans.now }
    ensures { Writes W.contents W.failures out.old out.new (written layout.now.margin.now
        (part_rows layout.now.request.options layout.now.request.many layout.now.request.name.now number text.now
        spans.now)) result }
{
    for part in spans {
        layout
            .request
            .write_part(number, text, *part, out, layout.margin)?;
    }
    Ok(())
}

/// Writes the row of a line, after a separator if there is one.
fn write_around<W: CountedWrite>(
    layout: &Layout,
    number: u64,
    text: &[u8],
    found: bool,
    separated: bool,
    out: &mut W,
) -> Result<(), WriteFault>
    ensures { Writes W.contents W.failures out.old out.new (written layout.now.margin.now
        (around_rows layout.now.request.options layout.now.request.many layout.now.request.name.now separated
        found number text.now)) result }
{
    write_separator(separated, out, layout.margin)?;
    layout
        .request
        .write_shown(found, number, text, out, layout.margin)
}

/// Writes the rows of line `k`, which is shown. Where lines around selected ones are shown,
/// `separated` says whether a separator goes first.
fn write_place<W: CountedWrite>(
    layout: &Layout,
    lines: &FileLines,
    k: usize,
    separated: bool,
    out: &mut W,
) -> Result<(), WriteFault>
    requires inside { k < length (all_of lines.now) }
    requires few { k + 1 < 2 ^ 64 }
    requires fit { PartsFit layout.now.request.options (get_or (all_of lines.now) k no_line) }
    ensures { Writes W.contents W.failures out.old out.new (written layout.now.margin.now
        (place_rows layout.now.request.options layout.now.request.many layout.now.request.name.now
        (form layout.now.request.options) separated (k + 1) (get_or (all_of lines.now) k no_line))) result }
{
    let options = &layout.request.options;
    let number = k as u64 + 1;
    let text = lines.line(k);
    match options.form() {
        Form::Lines => layout.request.write_text(number, text, out, layout.margin),
        Form::Parts => write_parts(layout, number, text, lines.spans(k), out),
        Form::Around(_) => {
            let found = is_selected(lines, k, options);
            write_around(layout, number, text, found, separated, out)
        }
        Form::Nothing => Ok(()),
        Form::Names => Ok(()),
        Form::Counts => Ok(()),
    }
}

/// Writes the rows of a file's lines. `some` says whether a group of lines was written before, and
/// is returned for what follows.
pub fn write_lines<W: CountedWrite>(
    layout: &Layout,
    some: bool,
    lines: &FileLines,
    out: &mut W,
) -> Result<bool, WriteFault>
    requires { All (PartsFit layout.now.request.options) (all_of lines.now) }
    ensures { (es : List Expression) →
        All (IsKept es layout.now.request.options) (all_of lines.now) →
        WritesGroups W.contents W.failures
        (LineRowsOf es layout.now.request.options layout.now.request.many
        (form layout.now.request.options)
        (file_so_far layout.now.request.name.now (map line_text (all_of lines.now))))
        (form layout.now.request.options) layout.now.margin.now some out.old out.new result }
{
    let options = &layout.request.options;
    let Some(context) = context_of(options) else {
        return Ok(some);
    };
    let end = lines.len();
    let mut some = some;
    let mut begins = true;
    let first = find_selected(lines, options, 0);
    let (mut near, mut k) = next_shown(lines, options, context, first, 0);
    'places: while k < end {
        write_place(layout, lines, k, begins & some, out)?;
        let (later, next) = next_shown(lines, options, context, near, k + 1);
        some = true;
        begins = next > k + 1;
        near = later;
        k = next;
    }
    Ok(some)
}
