//! `grep`: runs the command on the words, files and streams of the system, with its exit status.
#![tactic(auto)]

mod disk;
mod exit;
mod guard;

ghost use Rattle.{grep_core.specs.{Run.writer, Sources.Returns}, grep_utility.specs.Words.texts_of};
ghost use Rattle.grep.specs.Exit.{ProgramGives, streams};

use crate::disk::DiskFiles;
use crate::exit::{finish, program};
use grep_core::{Buffered, CountedWrite, Tally, WholeLines};
use grep_utility::{Files, run_grep, send_messages};
use re_auto::{Meter, fresh_meter};
use std::alloc::Global;
use std::process::ExitCode;

/// Runs the command of these words, which follow the program's name, sends the output and the
/// messages that are still buffered, and returns the exit status.
fn run<F: Files, W: CountedWrite, M: CountedWrite>(
    alloc: Global,
    words: &[String],
    files: &mut F,
    out: &mut Buffered<W>,
    messages: &mut M,
    meter: &mut Meter,
) -> u8
    ensures { ProgramGives W.contents W.failures (F.folder files.old)
        (Returns F.returned_readers files.old files.new) (texts_of words.now)
        (streams out.old (writer M.contents M.failures messages.old) (M.waiting messages.old)
        (F.failures files.old) meter.old)
        (streams out.new (writer M.contents M.failures messages.new) (M.waiting messages.new)
        (F.failures files.new) meter.new)
        result }
{
    let found = run_grep(alloc, words, files, out, messages, meter);
    let ended = finish(out, messages, found);
    send_messages(messages, ended)
}

/// Runs the command on the words and the devices of the system. Output is buffered, and sent before
/// each read that may wait. A message is sent as a whole line.
fn main(rt: HostRuntime) -> ExitCode {
    let alloc = rt.alloc();
    let words = match program().words(&rt) {
        Ok(words) => words,
        Err(status) => return ExitCode::from(status),
    };
    let words = words.get(1..).unwrap_or_default();
    let Ok(mut messages) = WholeLines::new(alloc, Tally::new(rt.stderr())) else {
        return ExitCode::from(program().refuse_memory(&mut Tally::new(rt.stderr())));
    };
    let Ok(mut out) = Buffered::new(alloc, Tally::new(rt.stdout())) else {
        return ExitCode::from(program().refuse_memory(&mut messages));
    };
    let mut files = DiskFiles::new(&rt);
    let mut meter = fresh_meter();
    let status = run(
        alloc,
        words,
        &mut files,
        &mut out,
        &mut messages,
        &mut meter,
    );
    ExitCode::from(status)
}
