//! Messages about files, on standard error (XCU grep, STDERR).
ghost use Rattle.std.specs.Prelude.{[]};
ghost use Rattle.grep_core.specs.{Messages.{cannot_open, read_error}, Row.output_line};
ghost use Rattle.grep_io.specs.Written.{Writes};

use crate::output::rows::write_row;
use grep_io::{CountedWrite, WriteFault};

/// Writes the message on a file that could not be opened.
///
/// Returns `WriteFault` if a write fails. It is not tried again.
pub fn write_cannot_open<M: CountedWrite>(messages: &mut M, name: &[u8]) -> Result<(), WriteFault>
    ensures { Writes M.contents M.failures messages.old messages.new
        (output_line [] (cannot_open name.now)) result }
{
    write_row(messages, b"grep: ", b':', Some(name), None, b" cannot open")
}

/// Writes the message on a file whose read failed.
///
/// Returns `WriteFault` if a write fails. It is not tried again.
pub fn write_read_error<M: CountedWrite>(messages: &mut M, name: &[u8]) -> Result<(), WriteFault>
    ensures { Writes M.contents M.failures messages.old messages.new
        (output_line [] (read_error name.now)) result }
{
    write_row(messages, b"grep: ", b':', Some(name), None, b" read error")
}
