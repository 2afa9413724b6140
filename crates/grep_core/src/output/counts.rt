// Counts and names of files, written to any counted writer.
ghost use Rattle.std.specs.{Prelude.{[], ◌∷◌, ◌++◌}, Fmt.decimal, Option.option_copied};
ghost use Rattle.{grep_core.specs.Row.{colon, prefix, output_line}, grep_io.specs.Written.Writes};
ghost use Rattle.re_syntax.specs.Lines.{newline};

use crate::output::rows::{write_decimal, write_line_after, write_prefix};
use grep_io::{CountedWrite, WriteFault, push_all};

fn write_decimal_line<W: CountedWrite>(out: &mut W, number: u64) -> Result<(), WriteFault>
    ensures { Writes W.contents W.failures out.old out.new (decimal number ++ newline ∷ []) result }
{
    write_decimal(out, number)?;
    push_all(out, b"\n")
}

fn write_prefixed_decimal<W: CountedWrite>(
    out: &mut W,
    name: Option<&[u8]>,
    number: u64,
) -> Result<(), WriteFault>
    ensures { Writes W.contents W.failures out.old out.new
        (prefix colon (option_copied name.entry) ++ (decimal number ++ newline ∷ [])) result }
{
    write_prefix(out, b':', name)?;
    write_decimal_line(out, number)
}

/// Writes a count of lines (XCU grep, option `-c`): the margin; the name and a colon, where there
/// is a name; the count in decimal and a newline.
///
/// Returns `WriteFault` if a write fails. It is not tried again.
pub fn write_count<W: CountedWrite>(
    out: &mut W,
    margin: &[u8],
    name: Option<&[u8]>,
    count: u64,
) -> Result<(), WriteFault>
    ensures { Writes W.contents W.failures out.old out.new
        (output_line margin.now (prefix colon (option_copied name.entry) ++ decimal count)) result }
{
    push_all(out, margin)?;
    write_prefixed_decimal(out, name, count)
}

/// Writes the name of a file (XCU grep, option `-l`): the margin, the name and a newline.
///
/// Returns `WriteFault` if a write fails. It is not tried again.
pub fn write_name<W: CountedWrite>(
    out: &mut W,
    margin: &[u8],
    name: &[u8],
) -> Result<(), WriteFault>
    ensures { Writes W.contents W.failures out.old out.new (output_line margin.now name.now)
        result }
{
    write_line_after(out, margin, name)
}
