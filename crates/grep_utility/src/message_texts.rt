//! What a command reports on standard error (XCU grep, STDERR), and its exit status.
ghost use Rattle.std.specs.Prelude.{◌≡◌, ℕ, [], ◌∷◌};
ghost use Rattle.{re_search.specs.Meters.Steps, grep_core.specs.Run.{writer, Writer, devices}};
ghost use Rattle.grep_core.specs.{Row.output_line, Written.Writes};
ghost use Rattle.grep_utility.specs.Command.{SendsMessages, EndsAfter, ReportsLines};
ghost use Rattle.grep_utility.specs.Working.Prepared.{HasNumber, due_text};

use crate::files::display_name;
use crate::prepare::CommandFault;
use crate::refusal::write_pattern_refused;
use crate::texts::{FAILED, OUT_OF_MEMORY, WRITE_ERROR};
use grep_core::{
    CountedWrite, RunFault, Status, WriteFault, write_cannot_open, write_line, write_read_error,
};

/// Reports why a command fails, and returns its exit status. A write that fails is not tried again.
pub fn fail<M: CountedWrite>(messages: &mut M, text: &[u8]) -> u8
    ensures status { result ≡ 2 }
    ensures reported { ReportsLines (writer M.contents M.failures messages.old)
        (writer M.contents M.failures messages.new) (text.now ∷ []) }
{
    let _ = write_line(messages, text);
    FAILED
}

/// Sends the messages that are still buffered, and returns the exit status: the one that was found,
/// or 2 if they could not be sent. If a message could not be written before, nothing is sent.
pub fn send_messages<M: CountedWrite>(messages: &mut M, found: u8) -> u8
    ensures { SendsMessages (writer M.contents M.failures messages.old)
        (writer M.contents M.failures messages.new) (M.waiting messages.new) found result }
{
    if messages.failures() > 0 {
        return found;
    }
    match messages.flush() {
        Ok(()) => found,
        Err(WriteFault) => FAILED,
    }
}

/// Writes the line on why a command ends before its search.
pub fn write_command_fault<M: CountedWrite>(
    messages: &mut M,
    fault: CommandFault,
) -> Result<(), WriteFault>
    requires { HasNumber fault }
    ensures { Writes M.contents M.failures messages.old messages.new
        (output_line [] (due_text fault.entry)) result }
{
    match fault {
        CommandFault::Missing(word) => write_cannot_open(messages, display_name(word)),
        CommandFault::Broken(word) => write_read_error(messages, display_name(word)),
        CommandFault::Memory => write_line(messages, OUT_OF_MEMORY),
        CommandFault::TooMany => write_line(messages, b"grep: too many patterns"),
        CommandFault::Refused(place, fault) => {
            let number = (place + 1) as u64;
            write_pattern_refused(messages, b"grep: pattern ", number, b": ", fault, b" at ")
        }
    }
}

/// Reports what cut a search short, but not where a message could not be written, and returns the
/// exit status.
pub fn end_search<M: CountedWrite>(messages: &mut M, found: Result<Status, RunFault>) -> u8
    ensures { (out : Writer) (failures : ℕ) (steps : Steps) → EndsAfter found
        (devices out (writer M.contents M.failures messages.old) failures steps)
        (devices out (writer M.contents M.failures messages.new) failures steps)
        result }
{
    match found {
        Ok(Status::Selected) => 0,
        Ok(Status::NoneSelected) => 1,
        Ok(Status::Error) => FAILED,
        Err(RunFault::Write) => fail(messages, WRITE_ERROR),
        Err(RunFault::MessageWrite) => FAILED,
        Err(RunFault::Memory { .. }) => fail(messages, OUT_OF_MEMORY),
    }
}
