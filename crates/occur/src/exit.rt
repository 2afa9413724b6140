//! How the program reports its own faults, and how it ends.
ghost use Rattle.std.specs.Prelude.{◌≡◌, [], ◌∷◌};
ghost use Rattle.{clap.specs.Words.kind_of, grep_core.specs.{Row.output_line, Run.writer}};
ghost use Rattle.{grep_core.specs.Written.Writes, grep_utility.specs.Command.ReportsLines};
ghost use Rattle.occur.specs.Exit.{EndsScript, cannot_open, fault_text, out_of_memory, usage};
ghost use Rattle.occur.specs.Exit.{words_refused, words_status};

use clap::Error;
use clap::error::ErrorKind;
use grep_cmd::{FAILED, ScriptEnd, ScriptFault};
use grep_core::{CountedWrite, WriteFault, write_row};
use grep_utility::{Program, fail};

/// The exit status of a script with a refused command.
const REFUSED: u8 = 1;

/// The message when memory runs out.
const OUT_OF_MEMORY: &[u8] = b"occur: out of memory";

/// What the program reports of itself.
pub fn program() -> Program
    ensures words { result.words_refused.now ≡ words_refused }
    ensures usage { result.usage.now ≡ usage }
    ensures memory { result.out_of_memory.now ≡ out_of_memory }
{
    Program {
        words_refused: b"occur: words must be UTF-8",
        usage: b"usage: occur [--states N] [SCRIPT]",
        out_of_memory: OUT_OF_MEMORY,
    }
}

/// Writes the message about a script that could not be opened.
fn write_cannot_open<M: CountedWrite>(messages: &mut M, name: &[u8]) -> Result<(), WriteFault>
    ensures { Writes M.contents M.failures messages.old messages.new
        (output_line [] (cannot_open name.now)) result }
{
    write_row(
        messages,
        b"occur: ",
        b':',
        Some(name),
        None,
        b" cannot open",
    )
}

/// Reports that the script could not be opened, and returns the exit status. A write that fails is
/// not tried again.
pub fn refuse_script<M: CountedWrite>(messages: &mut M, name: &str) -> u8
    ensures status { result ≡ 2 }
    ensures reported { ReportsLines (writer M.contents M.failures messages.old)
        (writer M.contents M.failures messages.new)
        (cannot_open name.now ∷ []) }
{
    let _ = write_cannot_open(messages, name.as_bytes());
    FAILED
}

/// The message about a script that was not run to its end.
fn fault_text(fault: ScriptFault) -> &'static [u8]
    ensures { result.now ≡ fault_text fault }
{
    match fault {
        ScriptFault::Read => b"occur: read error",
        ScriptFault::Write => b"occur: write error",
        ScriptFault::Memory => OUT_OF_MEMORY,
    }
}

/// Reports the fault if a script was not run to its end, and returns the exit status. A write that
/// fails is not tried again.
pub fn end_script<M: CountedWrite>(messages: &mut M, ended: Result<ScriptEnd, ScriptFault>) -> u8
    ensures { EndsScript ended (writer M.contents M.failures messages.old)
        (writer M.contents M.failures messages.new) result }
{
    match ended {
        Ok(ScriptEnd::Clean) => 0,
        Ok(ScriptEnd::Refused) => REFUSED,
        Err(fault) => fail(messages, fault_text(fault)),
    }
}

/// The exit status when the words choose no script to run. Asking for help or the version is no
/// fault.
pub fn words_status(error: &Error) -> u8
    ensures { result ≡ words_status (kind_of error.now) }
{
    match error.kind() {
        ErrorKind::DisplayHelp => 0,
        ErrorKind::DisplayVersion => 0,
        _ => FAILED,
    }
}
