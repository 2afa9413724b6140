//! The messages on words that are refused (XCU grep, STDERR).
ghost use Rattle.std.specs.Prelude.{[], ◌++◌, encode_utf8};
ghost use Rattle.grep_core.specs.{Output.written, Row.output_line, Written.Writes};
ghost use Rattle.grep_utility.specs.Texts.{fault_text, usage_texts};

use crate::texts::{OUT_OF_MEMORY, USAGE};
use crate::words::UsageFault;
use grep_core::{CountedWrite, WriteFault, push_all, write_line, write_line_after};

/// Writes a line with an option in it.
fn write_option<M: CountedWrite>(
    messages: &mut M,
    before: &[u8],
    letter: char,
    after: &[u8],
) -> Result<(), WriteFault>
    ensures { Writes M.contents M.failures messages.old messages.new
        (before.now ++ output_line (encode_utf8 letter) after.now) result }
{
    let mut bytes = [0; 4];
    let letter = letter.encode_utf8(&mut bytes).as_bytes();
    push_all(messages, before)?;
    write_line_after(messages, letter, after)
}

/// Writes the line that reports the fault.
#[tactic(auto, unfolding(crate::specs::Texts::fault_text))]
fn write_fault<M: CountedWrite>(messages: &mut M, fault: UsageFault) -> Result<(), WriteFault>
    ensures { Writes M.contents M.failures messages.old messages.new
        (output_line [] (fault_text fault)) result }
{
    match fault {
        UsageFault::UnknownOption(letter) => {
            write_option(messages, b"grep: unknown option -", letter, b"")
        }
        UsageFault::MissingArgument(letter) => {
            write_option(messages, b"grep: option -", letter, b" needs an argument")
        }
        UsageFault::BadNumber(letter) => {
            write_option(messages, b"grep: option -", letter, b" needs a number")
        }
        UsageFault::TwoSyntaxes => write_line(messages, b"grep: -E and -F together"),
        UsageFault::NoPattern => write_line(messages, b"grep: no pattern"),
        UsageFault::Memory => write_line(messages, OUT_OF_MEMORY),
    }
}

/// Writes the line that reports the fault, and after it how the command is used, unless the fault
/// is out of memory.
///
/// Returns `WriteFault` if a write fails. It is not tried again.
pub fn write_usage_fault<M: CountedWrite>(
    messages: &mut M,
    fault: UsageFault,
) -> Result<(), WriteFault>
    ensures { Writes M.contents M.failures messages.old messages.new
        (written [] (usage_texts fault)) result }
{
    write_fault(messages, fault)?;
    match fault {
        UsageFault::Memory => Ok(()),
        _ => write_line(messages, USAGE),
    }
}
