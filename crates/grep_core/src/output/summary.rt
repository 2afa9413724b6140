//! What is written of a file after the rows of its lines, and how a run ends: for one pass over
//! sources, and for files that are kept.
ghost use Rattle.std.specs.Prelude.{◌≡◌};
ghost use Rattle.grep_core.specs.Working.Searched.{status_by, summary_as, reported_of};
ghost use Rattle.grep_core.specs.{Messages.{read_error, cannot_open}, Row.output_line};
ghost use Rattle.{grep_core.specs.Output.{written, form}, grep_io.specs.Written.Writes};

use crate::options::Form;
use crate::output::counts::{write_count, write_name};
use crate::output::messages::{write_cannot_open, write_read_error};
use crate::output::request::FileRequest;
use crate::status::{FileEnd, FileFound, Status};
use grep_io::{CountedWrite, WriteFault, push_all};

/// Writes what follows the rows of a file's lines: under `-l` the file's name, if a line is
/// selected, and under `-c` the number of its selected lines, if it could be opened.
///
/// Returns `WriteFault` if a write fails. It is not tried again.
#[tactic(auto, using(crate::proofs::lemmas::WrittenLemmas::as_written))]
pub fn write_summary<W: CountedWrite>(
    request: &FileRequest,
    found: FileFound,
    out: &mut W,
    margin: &[u8],
) -> Result<(), WriteFault>
    ensures { Writes W.contents W.failures out.old out.new (written margin.now
        (summary_as (form request.now.options) request.now.many request.now.name.now found.end
        found.selected)) result }
{
    match request.options.form() {
        Form::Names => {
            if found.has_selected() {
                return write_name(out, margin, request.name);
            }
            Ok(())
        }
        Form::Counts => {
            if found.end.is_missing() {
                return Ok(());
            }
            write_count(out, margin, request.shown_name(), found.selected)
        }
        Form::Nothing => Ok(()),
        Form::Parts => Ok(()),
        Form::Lines => Ok(()),
        Form::Around(_) => Ok(()),
    }
}

fn report_missing<N: CountedWrite>(
    name: &[u8],
    messages: &mut N,
    margin: &[u8],
) -> Result<(), WriteFault>
    ensures { Writes N.contents N.failures messages.old messages.new
        (output_line margin.now (cannot_open name.now)) result }
{
    push_all(messages, margin)?;
    write_cannot_open(messages, name)
}

fn report_broken<N: CountedWrite>(
    name: &[u8],
    messages: &mut N,
    margin: &[u8],
) -> Result<(), WriteFault>
    ensures { Writes N.contents N.failures messages.old messages.new
        (output_line margin.now (read_error name.now)) result }
{
    push_all(messages, margin)?;
    write_read_error(messages, name)
}

/// Writes the message on a file that could not be opened or read, or none if that is asked for
/// (option `-s`).
///
/// Returns `WriteFault` if a write fails. It is not tried again.
#[tactic(auto, using(crate::proofs::lemmas::WrittenLemmas::as_written))]
pub fn report_fault<N: CountedWrite>(
    silent: bool,
    name: &[u8],
    end: FileEnd,
    messages: &mut N,
    margin: &[u8],
) -> Result<(), WriteFault>
    ensures { Writes N.contents N.failures messages.old messages.new
        (written margin.now (reported_of silent end name.now)) result }
{
    if silent {
        return Ok(());
    }
    match end {
        FileEnd::Missing => report_missing(name, messages, margin),
        FileEnd::Broken => report_broken(name, messages, margin),
        FileEnd::Whole => Ok(()),
        FileEnd::Left => Ok(()),
    }
}

/// The status of a run that did not stop on its way.
pub fn status_of(some: bool, faulty: bool) -> Status
    ensures { result ≡ status_by some faulty }
{
    if faulty {
        return Status::Error;
    }
    if some {
        return Status::Selected;
    }
    Status::NoneSelected
}
