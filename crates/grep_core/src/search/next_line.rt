//! The next line of a search, and sending buffered output before a read that may wait.
ghost use Rattle.std.specs.Prelude.{List, []};
ghost use Rattle.{re_syntax.specs.Bytes.Text, grep_io.specs.Working.Numbered.HasHanded};
ghost use Rattle.{grep_io.specs.Written.Writes, grep_core.specs.Working.Taken.NextTaken};

use crate::status::{FileEnd, SearchFault};
use grep_io::{CountedRead, CountedWrite, Lines, ReadFault, WriteFault};

/// Sends buffered output if the next line is not held whole, since it then needs a read, which may
/// wait.
///
/// Returns `WriteFault` if a write fails. It is not tried again.
#[tactic(auto, using(crate::proofs::lemmas::RowLemmas::writing))]
pub fn send_before_read<R: CountedRead, W: CountedWrite>(
    lines: &Lines<R>,
    out: &mut W,
) -> Result<(), WriteFault>
    ensures { Writes W.contents W.failures out.old out.new [] result }
{
    if lines.has_line() {
        return Ok(());
    }
    out.flush()
}

/// Takes the next line, or returns how the file ended, if there is none. Buffered output is sent
/// before a read, which may wait.
#[inline(always)]
pub fn take_next<R: CountedRead, W: CountedWrite>(
    lines: &mut Lines<R>,
    out: &mut W,
) -> Result<Option<FileEnd>, SearchFault>
    ensures { (reader : R) (handed : List Text)
        → HasHanded R.remaining R.failures reader lines.old handed
        → NextTaken R.remaining R.failures W.contents W.failures reader handed lines.new out.old
        out.new result }
{
    send_before_read(lines, out)?;
    match lines.next_numbered() {
        Ok(true) => Ok(None),
        Ok(false) => Ok(Some(FileEnd::Whole)),
        Err(ReadFault::Device) => Ok(Some(FileEnd::Broken)),
        Err(ReadFault::Memory) => Err(SearchFault::Memory(lines.number())),
    }
}
