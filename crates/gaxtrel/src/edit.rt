//! One command of a script with the lines that it counts.
ghost use Rattle.std.specs.Prelude.{◌≡◌, ◌++◌, ◌∷◌, IfOk, MatchBool, MatchResult, length};
ghost use Rattle.re_syntax.specs.Lines.{HasNoNewline, lines_of, newline};
ghost use Rattle.{script_commands.specs.Commands.line_command, gaxtrel.specs.Live.IsNoEdit};
ghost use Rattle.gaxtrel.specs.Live.{IsOneCommand, count_of};

use crate::numbers::MISUSED;
use re_syntax::split_file;
use script_commands::{Command, read_command};
use std::alloc::{AllocError, Global};

/// The script of a command and its lines; or the answer of a call for those that are none: 3 if the
/// command has a newline, or counts more or fewer lines, 2 if memory is refused.
pub(crate) fn script_of(alloc: Global, command: &[u8], lines: &[u8]) -> Result<Vec<u8>, u32>
    ensures { MatchResult result (λ script. IsOneCommand command.now lines.now
        × (script.items ≡ command.now ++ newline ∷ lines.now))
        (IsNoEdit command.now lines.now) }
{
    if has_newline(command) {
        return Err(MISUSED);
    }
    let Ok(count) = read_count(alloc, command) else {
        return Err(2);
    };
    if count != count_lines(lines) {
        return Err(MISUSED);
    }
    let Ok(script) = join(alloc, command, lines) else {
        return Err(2);
    };
    Ok(script)
}

/// Whether a byte of the command is a newline.
fn has_newline(command: &[u8]) -> bool
    ensures { MatchBool result (HasNoNewline command.now → ⊥) (HasNoNewline command.now) }
{
    command.contains(&b'\n')
}

/// How many lines a command counts. The allocation for its name may fail.
fn read_count(alloc: Global, command: &[u8]) -> Result<usize, AllocError>
    ensures { IfOk result (λ count. count ≡ count_of (line_command command.now)) }
{
    match read_command(alloc, command)? {
        Some(Command::Counted(counted)) => Ok(counted.count),
        _ => Ok(0),
    }
}

/// How many lines a text has. The last may lack its newline.
fn count_lines(text: &[u8]) -> usize
    ensures { result ≡ length (lines_of text.now) }
{
    split_file(text).count()
}

/// A command, a newline and its lines.
fn join(alloc: Global, command: &[u8], lines: &[u8]) -> Result<Vec<u8>, AllocError>
    ensures { IfOk result (λ script. script.items ≡ command.now ++ newline ∷ lines.now) }
{
    let mut script = Vec::new(alloc);
    script.extend_from_slice(command)?;
    script.push(b'\n')?;
    script.extend_from_slice(lines)?;
    Ok(script)
}
