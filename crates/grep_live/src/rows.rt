//! Rows of numbers and of hits.
ghost use Rattle.std.specs.{Prelude.{◌++◌, [], map, codes}, Fmt.decimal};
ghost use Rattle.grep_core.specs.{Row.output_line, Written.Writes};
ghost use Rattle.{grep_session.specs.Working.Kept.span_places, grep_live.specs.Rows.spaced};
ghost use Rattle.grep_live.specs.Rows.{part_text, more_parts, parts_text, hit_text, line_text};

use crate::row_form::RowForm;
use grep_core::{CountedWrite, WriteFault, push_all, write_decimal, write_line};
use grep_session::Hit;
use re_search::Span;

/// Writes some bytes and a number.
#[tactic(auto, using(grep_core::proofs::lemmas::RowLemmas::writing))]
fn write_number<W: CountedWrite>(
    out: &mut W,
    before: &[u8],
    number: usize,
) -> Result<(), WriteFault>
    ensures { Writes W.contents W.failures out.old out.new (before.now ++ decimal number) result }
{
    push_all(out, before)?;
    write_decimal(out, number as u64)
}

/// Writes numbers, each after a space.
fn write_numbers<W: CountedWrite>(out: &mut W, numbers: &[usize]) -> Result<(), WriteFault>
    ensures { Writes W.contents W.failures out.old out.new (spaced numbers.now) result }
{
    for number in numbers {
        write_number(out, b" ", *number)?;
    }
    Ok(())
}

/// Writes where a part starts and ends.
#[tactic(auto, using(grep_core::proofs::lemmas::RowLemmas::writing))]
fn write_part<W: CountedWrite>(out: &mut W, part: Span) -> Result<(), WriteFault>
    ensures { Writes W.contents W.failures out.old out.new (part_text (span_places part)) result }
{
    write_decimal(out, part.start as u64)?;
    write_number(out, b"-", part.end)
}

/// Writes some bytes and where a part starts and ends.
#[tactic(auto, using(grep_core::proofs::lemmas::RowLemmas::writing))]
fn write_next_part<W: CountedWrite>(
    out: &mut W,
    before: &[u8],
    part: Span,
) -> Result<(), WriteFault>
    ensures { Writes W.contents W.failures out.old out.new
        (before.now ++ part_text (span_places part)) result }
{
    push_all(out, before)?;
    write_part(out, part)
}

/// Writes the parts after the first, each after a comma.
fn write_more_parts<W: CountedWrite>(out: &mut W, parts: &[Span]) -> Result<(), WriteFault>
    ensures { Writes W.contents W.failures out.old out.new
        (more_parts (map span_places parts.now)) result }
{
    for part in parts {
        write_next_part(out, b",", *part)?;
    }
    Ok(())
}

/// Writes the parts of a line, or a hyphen where there are none.
#[tactic(auto, using(grep_core::proofs::lemmas::RowLemmas::writing))]
fn write_parts<W: CountedWrite>(out: &mut W, parts: &[Span]) -> Result<(), WriteFault>
    ensures { Writes W.contents W.failures out.old out.new
        (parts_text (map span_places parts.now)) result }
{
    let Some((first, rest)) = parts.split_first() else {
        return push_all(out, b"-");
    };
    write_part(out, *first)?;
    write_more_parts(out, rest)
}

/// Writes a word and numbers.
#[tactic(auto, using(grep_core::proofs::lemmas::RowLemmas::writing))]
fn write_word<W: CountedWrite>(
    out: &mut W,
    word: &[u8],
    numbers: &[usize],
) -> Result<(), WriteFault>
    ensures { Writes W.contents W.failures out.old out.new (word.now ++ spaced numbers.now) result }
{
    push_all(out, word)?;
    write_numbers(out, numbers)
}

/// Writes the margin, a word and numbers.
#[tactic(auto, using(grep_core::proofs::lemmas::RowLemmas::writing))]
fn write_head<W: CountedWrite>(
    out: &mut W,
    margin: &[u8],
    word: &[u8],
    numbers: &[usize],
) -> Result<(), WriteFault>
    ensures { Writes W.contents W.failures out.old out.new
        (margin.now ++ (word.now ++ spaced numbers.now)) result }
{
    push_all(out, margin)?;
    write_word(out, word, numbers)
}

/// Writes a row of a word and numbers.
#[tactic(auto, using(grep_core::proofs::lemmas::RowLemmas::writing))]
pub fn write_number_row<W: CountedWrite>(
    out: &mut W,
    margin: &[u8],
    word: &[u8],
    numbers: &[usize],
) -> Result<(), WriteFault>
    ensures { Writes W.contents W.failures out.old out.new
        (output_line margin.now (word.now ++ spaced numbers.now)) result }
{
    write_head(out, margin, word, numbers)?;
    push_all(out, b"\n")
}

/// Writes some bytes, a line and a newline.
#[tactic(auto, using(grep_core::proofs::lemmas::RowLemmas::writing))]
fn write_text<W: CountedWrite>(out: &mut W, before: &[u8], text: &[u8]) -> Result<(), WriteFault>
    ensures { Writes W.contents W.failures out.old out.new
        (before.now ++ output_line [] text.now) result }
{
    push_all(out, before)?;
    write_line(out, text)
}

/// Writes the end of a row: a space and the line, or nothing, and a newline.
fn write_end<W: CountedWrite>(out: &mut W, has_text: bool, text: &[u8]) -> Result<(), WriteFault>
    ensures { Writes W.contents W.failures out.old out.new
        (output_line [] (line_text has_text text.now)) result }
{
    if has_text {
        return write_text(out, b" ", text);
    }
    write_line(out, b"")
}

/// Writes the parts of a hit and the end of its row.
#[tactic(auto, using(grep_core::proofs::lemmas::RowLemmas::writing))]
fn write_with_parts<W: CountedWrite>(
    out: &mut W,
    parts: &[Span],
    has_text: bool,
    text: &[u8],
) -> Result<(), WriteFault>
    ensures { Writes W.contents W.failures out.old out.new
        (parts_text (map span_places parts.now) ++ output_line [] (line_text has_text text.now))
        result }
{
    write_parts(out, parts)?;
    write_end(out, has_text, text)
}

/// Writes some bytes, the parts of a hit and the end of its row.
#[tactic(auto, using(grep_core::proofs::lemmas::RowLemmas::writing))]
fn write_rest<W: CountedWrite>(
    out: &mut W,
    before: &[u8],
    parts: &[Span],
    has_text: bool,
    text: &[u8],
) -> Result<(), WriteFault>
    ensures { Writes W.contents W.failures out.old out.new
        (before.now ++ (parts_text (map span_places parts.now)
        ++ output_line [] (line_text has_text text.now))) result }
{
    push_all(out, before)?;
    write_with_parts(out, parts, has_text, text)
}

/// Writes the row of a hit: a word, numbers, its parts and its line, if rows have that.
pub fn write_hit_row<W: CountedWrite>(
    out: &mut W,
    form: RowForm<'_>,
    word: &[u8],
    numbers: &[usize],
    hit: Hit<'_>,
) -> Result<(), WriteFault>
    ensures { Writes W.contents W.failures out.old out.new (output_line form.entry.margin.now
        (hit_text form.entry.has_text word.now numbers.now (map span_places hit.entry.parts.now)
        hit.entry.text.now)) result }
{
    write_head(out, form.margin, word, numbers)?;
    write_rest(out, b" ", hit.parts, form.has_text, hit.text)
}
