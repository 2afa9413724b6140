//! What an editor lists. No line is searched and nothing is allocated.
ghost use Rattle.grep_live.specs.Reported.{WritesChanges, WritesPage};

use crate::change_rows::write_changes;
use crate::page_rows::write_hits_page;
use crate::row_form::RowForm;
use crate::status::status;
use grep_core::{CountedWrite, Status, WriteFault};
use grep_session::Session;

/// Writes what changed of each file since the last call, each row in this form, and returns the
/// status of grep: which lines were replaced, by how many, and each hit among the new ones. A file
/// in which nothing changed has no row.
///
/// # Errors
///
/// `WriteFault` if a write fails, which the writer counts. A beginning was written, and the next
/// call reports all of it again. The write is not tried again.
pub fn changes<W: CountedWrite>(
    session: &mut Session,
    form: RowForm<'_>,
    out: &mut W,
) -> Result<Status, WriteFault>
    ensures { WritesChanges W.contents W.failures form.entry.margin.now form.entry.has_text
        out.old out.new session.old session.new result }
{
    let status = status(session);
    match write_changes(session, session.marks(), form, out) {
        Ok(()) => {}
        Err(fault) => return Err(fault),
    }
    session.know_all();
    Ok(status)
}

/// Writes the number of hits of all files, and a row for each of at most `count` of them from number
/// `first` on, counted from 0 over all files in order, each row in this form. Returns the status
/// of grep. A number above the greatest `u64` is written as that. The hits do not count as reported.
///
/// # Errors
///
/// `WriteFault` if a write fails, which the writer counts. A beginning was written. The write is not
/// tried again.
pub fn page<W: CountedWrite>(
    session: &Session,
    first: usize,
    count: usize,
    form: RowForm<'_>,
    out: &mut W,
) -> Result<Status, WriteFault>
    ensures { WritesPage W.contents W.failures form.entry.margin.now form.entry.has_text out.old
        out.new session.now.inputs first count result }
{
    let status = status(session);
    match write_hits_page(session, first, count, form, out) {
        Ok(()) => {}
        Err(fault) => return Err(fault),
    }
    Ok(status)
}
