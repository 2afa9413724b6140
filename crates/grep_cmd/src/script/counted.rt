//! The lines of a script that a command counts.
ghost use Rattle.std.specs.Prelude.{◌≡◌, List};
ghost use Rattle.{re_syntax.specs.Bytes.Text, grep_core.specs.Reading.IsOneLineAndFew};
ghost use Rattle.grep_core.specs.Working.Numbered.{HasHanded};
ghost use Rattle.grep_cmd.specs.Working.Answered.{ReadsNext, TakesLines, Flushes};

use crate::script::ScriptFault;
use grep_core::{CountedRead, CountedWrite, Lines, ReadFault, WriteFault, send_before_read};
use grep_session::NewLines;
use std::alloc::Global;

/// Hands out the next line of a script, and returns whether there was one. Where it has to be read,
/// all replies are sent before.
pub fn next_line<R: CountedRead, W: CountedWrite>(
    lines: &mut Lines<R>,
    out: &mut W,
) -> Result<bool, ScriptFault>
    ensures next { (reader : R) (handed : List Text) →
        HasHanded R.remaining R.failures reader lines.old handed →
        ReadsNext R.remaining R.failures reader handed lines.new result }
    ensures sent { Flushes W.contents W.failures out.old out.new result }
    ensures held { IsOneLineAndFew lines.old.lines.ahead → IsOneLineAndFew lines.new.lines.ahead }
    ensures same_loan { R.loan lines.new.lines.reader ≡ R.loan lines.old.lines.reader }
{
    match send_before_read(lines, out) {
        Ok(()) => {}
        Err(WriteFault) => return Err(ScriptFault::Write),
    }
    match lines.next_numbered() {
        Ok(more) => Ok(more),
        Err(ReadFault::Device) => Err(ScriptFault::Read),
        Err(ReadFault::Memory) => Err(ScriptFault::Memory),
    }
}

/// The counted number of next lines; none where fewer follow. Memory is requested for the lines
/// that were read, and not by the count.
pub fn take_lines<R: CountedRead, W: CountedWrite>(
    alloc: Global,
    lines: &mut Lines<R>,
    count: usize,
    out: &mut W,
) -> Result<Option<NewLines>, ScriptFault>
    requires { (reader : R) × (handed : List Text) ×
        HasHanded R.remaining R.failures reader lines.old handed }
    ensures takes { (reader : R) (handed : List Text) →
        HasHanded R.remaining R.failures reader lines.old handed
        → TakesLines R.remaining R.failures reader handed count lines.new result }
    ensures sent { Flushes W.contents W.failures out.old out.new result }
    ensures held { IsOneLineAndFew lines.old.lines.ahead → IsOneLineAndFew lines.new.lines.ahead }
    ensures same_loan { R.loan lines.new.lines.reader ≡ R.loan lines.old.lines.reader }
{
    let mut taken = NewLines::new(alloc);
    while taken.len() < count {
        match next_line(lines, out) {
            Ok(true) => {}
            Ok(false) => return Ok(None),
            Err(fault) => return Err(fault),
        }
        match taken.push(lines.line()) {
            Ok(()) => {}
            Err(_) => return Err(ScriptFault::Memory),
        }
    }
    Ok(Some(taken))
}
