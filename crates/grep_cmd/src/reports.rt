//! The replies to `show`, `changes` and `page`, as the script of the program `occur` has them.
ghost use Rattle.grep_core.specs.{Row.output_line, Written.Writes};
ghost use Rattle.std.specs.Prelude.{[]};
ghost use Rattle.grep_cmd.specs.{Working.Reported.{WritesHits, WritesReport}, Replies.status_line};
ghost use Rattle.grep_cmd.specs.Replies.{Shows};

use grep_core::{CountedWrite, Status, WriteFault, write_line};
use grep_live::{RowForm, changes, page};
use grep_session::Session;

/// Writes the line of the status.
fn write_status<W: CountedWrite>(status: Status, out: &mut W) -> Result<(), WriteFault>
    ensures { Writes W.contents W.failures out.old out.new (output_line [] (status_line status))
        result }
{
    match status {
        Status::Selected => write_line(out, b"status 0"),
        Status::NoneSelected => write_line(out, b"status 1"),
        Status::Error => write_line(out, b"status 2"),
    }
}

/// Writes the output lines of the session after `o `, then the message lines after `e `, then the
/// status.
pub fn show<W: CountedWrite>(session: &Session, out: &mut W) -> Result<(), WriteFault>
    ensures { Shows W.contents W.failures session.now.inputs out.old out.new result }
{
    let status = session.report(b"o ", out)?;
    session.messages(b"e ", out)?;
    write_status(status, out)
}

/// Writes what changed of each file, then the status.
pub fn show_changes<W: CountedWrite>(
    session: &mut Session,
    has_text: bool,
    out: &mut W,
) -> Result<(), WriteFault>
    ensures { WritesReport W.contents W.failures out.old out.new has_text session.old session.new
        result }
{
    let form = RowForm {
        margin: b"",
        has_text,
    };
    let status = changes(session, form, out)?;
    write_status(status, out)
}

/// Writes the number of hits and at most `count` of them from number `first` on, then the status.
pub fn show_page<W: CountedWrite>(
    session: &Session,
    first: usize,
    count: usize,
    has_text: bool,
    out: &mut W,
) -> Result<(), WriteFault>
    ensures { WritesHits W.contents W.failures out.old out.new has_text session.now.inputs first
        count result }
{
    let form = RowForm {
        margin: b"",
        has_text,
    };
    let status = page(session, first, count, form, out)?;
    write_status(status, out)
}
