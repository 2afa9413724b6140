//! `occur`: runs a script that edits files, patterns and options, and asks what grep finds.
#![tactic(auto)]

mod exit;
mod help;
mod words;

ghost use Rattle.std.specs.Prelude.{◌≤◌, IfOk};
ghost use Rattle.{clap.specs.Words.matches_of, re_syntax.specs.Profile.most_states};
ghost use Rattle.{grep_core.specs.Run.writer, occur.specs.Exit.{ProgramGives, streams}};
ghost use Rattle.occur.specs.Words.{IsChosenBy, occur_app, texts_of};

use crate::exit::{end_script, program, refuse_script, words_status};
use crate::words::{OccurFault, ScriptRequest, occur_words};
use clap::Error;
use grep_cmd::{FAILED, Script, ScriptFault};
use grep_core::{Buffered, CountedRead, CountedWrite, Tally};
use grep_utility::send_messages;
use re_auto::{Meter, fresh_meter};
use std::alloc::Global;
use std::fs::{File, Metadata};
use std::os::unix::fs::MetadataExt;
use std::process::ExitCode;
use std::{fs, io};

/// Whether a script is the regular file to which replies are written: each reply would be a command
/// again, endlessly.
fn is_output(script: io::Result<Metadata>, output: io::Result<Metadata>) -> bool {
    let (Ok(script), Ok(output)) = (script, output) else {
        return false;
    };
    script.is_file() && script.dev() == output.dev() && script.ino() == output.ino()
}

/// Reports a script that is the output as one that can't be read, and returns the exit status.
fn refuse_output(rt: &HostRuntime) -> u8 {
    end_script(&mut Tally::new(rt.stderr()), Err(ScriptFault::Read))
}

/// Runs the script from the reader with its replies on the writer, reports what kept it from its end,
/// sends the messages that are still buffered, and returns the exit status. A write that fails is
/// not tried again.
fn run_on_devices<R: CountedRead, W: CountedWrite, M: CountedWrite>(
    alloc: Global,
    reader: &mut R,
    out: &mut Buffered<W>,
    messages: &mut M,
    states: usize,
    meter: &mut Meter,
) -> u8
    requires least { 1 ≤ states }
    requires most { states ≤ most_states }
    requires readable { R.may_be_read reader.old }
    ensures { ProgramGives W.contents W.failures W.waiting states
        (streams (R.remaining reader.old) (R.failures reader.old) out.old
        (writer M.contents M.failures messages.old) (M.waiting messages.old) meter.old)
        (streams (R.remaining reader.new) (R.failures reader.new) out.new
        (writer M.contents M.failures messages.new) (M.waiting messages.new) meter.new)
        result }
{
    let mut script = Script::new(alloc, states);
    let ended = script.answer(alloc, reader, out, meter);
    let found = end_script(messages, ended);
    send_messages(messages, found)
}

/// Prints the help, the version or the error when no script is run, and returns the exit status. If
/// the help or the version could not be written, that is reported.
fn report_words(rt: &HostRuntime, error: &Error) -> u8 {
    match error.print(rt) {
        Ok(()) => words_status(error),
        Err(_) if error.use_stderr() => FAILED,
        Err(_) => end_script(&mut Tally::new(rt.stderr()), Err(ScriptFault::Write)),
    }
}

/// What the words ask for.
///
/// # Errors
///
/// The exit status, where they ask for no script. The help or the version was printed, or the cause
/// reported.
fn read_words(rt: &HostRuntime, words: &[String]) -> Result<ScriptRequest, u8>
    ensures states { IfOk result (λ request. (1 ≤ request.states) × (request.states ≤ most_states)) }
    ensures chosen { IfOk result (IsChosenBy (matches_of occur_app (texts_of words.now))) }
{
    match occur_words(rt.alloc(), words) {
        Ok(request) => Ok(request),
        Err(OccurFault::Words(error)) => Err(report_words(rt, &error)),
        Err(OccurFault::Memory) => Err(program().refuse_memory(&mut Tally::new(rt.stderr()))),
    }
}

/// Opens the file of the script that the words ask for; none if that is standard input. A script
/// that is standard output itself is not read. Standard output is identified before the script is
/// opened: if it is closed, the script could take its number.
///
/// # Errors
///
/// The exit status, where there is no script that can be read. The cause was reported.
fn open_script(rt: &HostRuntime, request: &ScriptRequest) -> Result<Option<File>, u8> {
    let output = fs::metadata(rt, "/dev/stdout");
    let Some(name) = request.script_file() else {
        if is_output(fs::metadata(rt, "/dev/stdin"), output) {
            return Err(refuse_output(rt));
        }
        return Ok(None);
    };
    let Ok(file) = fs::open(rt, name) else {
        return Err(refuse_script(&mut Tally::new(rt.stderr()), name));
    };
    if is_output(file.metadata(), output) {
        return Err(refuse_output(rt));
    }
    Ok(Some(file))
}

/// Runs the script that the words ask for, and returns the exit status, also as an error where no
/// script is run.
fn run(rt: &HostRuntime) -> Result<u8, u8> {
    let words = program().words(rt)?;
    let request = read_words(rt, &words)?;
    let file = open_script(rt, &request)?;
    let (alloc, states) = (rt.alloc(), request.states);
    let mut messages = Tally::new(rt.stderr());
    let Ok(mut out) = Buffered::new(alloc, Tally::new(rt.stdout())) else {
        return Err(program().refuse_memory(&mut messages));
    };
    let mut meter = fresh_meter();
    let status = match file {
        None => {
            let mut input = Tally::new(rt.stdin());
            run_on_devices(
                alloc,
                &mut input,
                &mut out,
                &mut messages,
                states,
                &mut meter,
            )
        }
        Some(file) => {
            let mut file = Tally::new(file);
            run_on_devices(
                alloc,
                &mut file,
                &mut out,
                &mut messages,
                states,
                &mut meter,
            )
        }
    };
    Ok(status)
}

fn main(rt: HostRuntime) -> ExitCode {
    match run(&rt) {
        Ok(status) => ExitCode::from(status),
        Err(status) => ExitCode::from(status),
    }
}
