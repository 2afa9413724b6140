//! The lines of a script that are patterns.
ghost use Rattle.std.specs.Prelude.{◌≡◌, [], ◌∷◌, ◌++◌, List, IfOk, map, option_map};
ghost use Rattle.std.specs.Result.{result_map_both};
ghost use Rattle.{re_syntax.specs.Bytes.Text, grep_core.specs.Reading.IsOneLineAndFew};
ghost use Rattle.grep_core.specs.Working.Numbered.{HasHanded};
ghost use Rattle.grep_cmd.specs.Working.Answered.{TakesLines, Flushes};

use crate::script::ScriptFault;
use crate::script::counted::next_line;
use grep_core::{CountedRead, CountedWrite, Lines};
use std::alloc::{AllocError, Global};

/// Puts a copy of the line after the others.
fn push_line(alloc: Global, lines: &mut Vec<Vec<u8>>, line: &[u8]) -> Result<(), AllocError>
    ensures { IfOk result
        (λ _. map (λ l. l.items) lines.new.items ≡ map (λ l. l.items) lines.old.items ++ line.now ∷
        []) }
{
    let mut copy = Vec::new(alloc);
    copy.extend_from_slice(line)?;
    lines.push(copy)?;
    Ok(())
}

/// The counted number of next lines, each as a vector of its own; none where fewer follow.
pub fn take_texts<R: CountedRead, W: CountedWrite>(
    alloc: Global,
    lines: &mut Lines<R>,
    count: usize,
    out: &mut W,
) -> Result<Option<Vec<Vec<u8>>>, ScriptFault>
    ensures takes { (reader : R) (handed : List Text) →
        HasHanded R.remaining R.failures reader lines.old handed
        → TakesLines R.remaining R.failures reader handed count lines.new
        (result_map_both (λ taken. option_map (λ ls. map (λ l. l.items) ls.items) taken)
        (λ e. e) result) }
    ensures sent { Flushes W.contents W.failures out.old out.new result }
    ensures held { IsOneLineAndFew lines.old.lines.ahead → IsOneLineAndFew lines.new.lines.ahead }
    ensures same_loan { R.loan lines.new.lines.reader ≡ R.loan lines.old.lines.reader }
{
    let mut taken = Vec::new(alloc);
    while taken.len() < count {
        match next_line(lines, out) {
            Ok(true) => {}
            Ok(false) => return Ok(None),
            Err(fault) => return Err(fault),
        }
        match push_line(alloc, &mut taken, lines.line()) {
            Ok(()) => {}
            Err(_) => return Err(ScriptFault::Memory),
        }
    }
    Ok(Some(taken))
}
