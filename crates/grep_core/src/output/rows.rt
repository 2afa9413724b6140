// Output lines, written part by part to any counted writer.
ghost use Rattle.std.specs.{Prelude.{◌∷◌, if◌then◌else◌, [], ◌++◌}, Fmt.decimal};
ghost use Rattle.std.specs.Option.{option_copied};
ghost use Rattle.grep_core.specs.Row.{output_line, number_part, head, prefix};
ghost use Rattle.grep_core.specs.{Around.group_separator, Output.written};
ghost use Rattle.{grep_io.specs.Written.Writes, re_syntax.specs.Lines.newline};

use grep_io::{CountedWrite, WriteFault, push_all};
use itoa::Buffer;

/// Writes the name and the separator, where there is a name.
#[tactic(auto, using(crate::proofs::lemmas::RowLemmas::writing))]
pub fn write_prefix<W: CountedWrite>(
    out: &mut W,
    separator: u8,
    name: Option<&[u8]>,
) -> Result<(), WriteFault>
    ensures { Writes W.contents W.failures out.old out.new
        (prefix separator (option_copied name.entry)) result }
{
    let Some(name) = name else {
        return Ok(());
    };
    push_all(out, name)?;
    push_all(out, &[separator])
}

/// Writes the number in decimal.
pub fn write_decimal<W: CountedWrite>(out: &mut W, number: u64) -> Result<(), WriteFault>
    ensures { Writes W.contents W.failures out.old out.new (decimal number) result }
{
    push_all(out, Buffer::new().format(number).as_bytes())
}

#[tactic(auto, using(crate::proofs::lemmas::RowLemmas::writing))]
fn write_number_part<W: CountedWrite>(
    out: &mut W,
    separator: u8,
    number: Option<u64>,
) -> Result<(), WriteFault>
    ensures { Writes W.contents W.failures out.old out.new (number_part separator number) result }
{
    let Some(number) = number else {
        return Ok(());
    };
    write_decimal(out, number)?;
    push_all(out, &[separator])
}

#[tactic(auto, using(crate::proofs::lemmas::RowLemmas::writing))]
fn write_head<W: CountedWrite>(
    out: &mut W,
    separator: u8,
    name: Option<&[u8]>,
    number: Option<u64>,
) -> Result<(), WriteFault>
    ensures { Writes W.contents W.failures out.old out.new
        (head separator (option_copied name.entry) number) result }
{
    write_prefix(out, separator, name)?;
    write_number_part(out, separator, number)
}

/// Writes the text and a newline.
///
/// Returns `WriteFault` if a write fails. It is not tried again.
#[tactic(auto, using(crate::proofs::lemmas::RowLemmas::writing))]
pub fn write_line<W: CountedWrite>(out: &mut W, text: &[u8]) -> Result<(), WriteFault>
    ensures { Writes W.contents W.failures out.old out.new (output_line [] text.now) result }
{
    push_all(out, text)?;
    push_all(out, b"\n")
}

/// Writes the margin, the line and a newline.
///
/// Returns `WriteFault` if a write fails. It is not tried again.
pub fn write_line_after<W: CountedWrite>(
    out: &mut W,
    margin: &[u8],
    line: &[u8],
) -> Result<(), WriteFault>
    ensures { Writes W.contents W.failures out.old out.new
        (output_line margin.now line.now) result }
{
    push_all(out, margin)?;
    write_line(out, line)
}

/// Writes the line that separates groups of lines, if there is one before: the margin, two hyphens
/// and a newline.
///
/// Returns `WriteFault` if a write fails. It is not tried again.
#[tactic(auto, using(crate::proofs::lemmas::WrittenLemmas::as_written))]
pub fn write_separator<W: CountedWrite>(
    separated: bool,
    out: &mut W,
    margin: &[u8],
) -> Result<(), WriteFault>
    ensures { Writes W.contents W.failures out.old out.new
        (written margin.now (if separated then group_separator ∷ [] else [])) result }
{
    if separated {
        return write_line_after(out, margin, b"--");
    }
    Ok(())
}

#[tactic(auto, using(crate::proofs::lemmas::RowLemmas::writing))]
fn write_headed<W: CountedWrite>(
    out: &mut W,
    separator: u8,
    name: Option<&[u8]>,
    number: Option<u64>,
    text: &[u8],
) -> Result<(), WriteFault>
    ensures { Writes W.contents W.failures out.old out.new
        (head separator (option_copied name.entry) number ++ (text.now ++ newline ∷ [])) result }
{
    write_head(out, separator, name, number)?;
    write_line(out, text)
}

/// Writes one output line (XCU grep, STDOUT): the margin; the name and the separator, where there
/// is a name; the number in decimal and the separator, where there is a number; the text and a
/// newline.
///
/// Returns `WriteFault` if a write fails. It is not tried again.
pub fn write_row<W: CountedWrite>(
    out: &mut W,
    margin: &[u8],
    separator: u8,
    name: Option<&[u8]>,
    number: Option<u64>,
    text: &[u8],
) -> Result<(), WriteFault>
    ensures { Writes W.contents W.failures out.old out.new
        (output_line margin.now (head separator (option_copied name.entry) number ++ text.now))
        result }
{
    push_all(out, margin)?;
    write_headed(out, separator, name, number, text)
}
