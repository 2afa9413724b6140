//! Sessions that an editor watches: changes that could not be written, and files that were not
//! added because an allocation failed.
//!
//! Where no library refuses requests, as tools/refuse_growths.sh has it, each is granted, and each
//! file is added once.
use super::edits::{Answer, Edit, Handed, handed_by};
use super::harness::{DONE, NO_SUCH_FILE, STATES};
use crate::marks::{refuse, was_refused};
use grep_core::{Limited, Status, Tally, WriteFault};
use grep_live::{RowForm, changes};
use grep_session::{EditFault, NewLines, Session};
use re_auto::fresh_meter;
use std::alloc::Global;
use std::process::Abort;
use std::test::Fail;

/// How many requests an edit of these sessions makes at most.
const MOST: usize = 2_000;

/// Writes the changes of a session where this number of bytes is written before each further write
/// fails; the answer, and what was written.
fn changes_of(
    alloc: Global,
    live: &mut Session,
    room: usize,
) -> (Result<Status, WriteFault>, Vec<u8>) {
    let mut out = Tally::new(Limited::new(Vec::new(alloc), usize::MAX, room));
    let form = RowForm {
        margin: b"",
        has_text: true,
    };
    let answer = changes(live, form, &mut out);
    (answer, out.into_inner().into_inner())
}

/// Compares what the session reports, and that it then reports nothing.
fn assert_changes(
    rt: &impl Abort,
    alloc: Global,
    live: &mut Session,
    wanted: &[u8],
    status: Status,
) {
    for reply in [wanted, b""] {
        let (answer, written) = changes_of(alloc, live, usize::MAX);
        assert_eq!(rt; written.as_slice(), reply);
        assert_eq!(rt; answer, Ok(status));
    }
}

/// Makes an edit that adds a file or replaces lines.
fn add_lines(alloc: Global, live: &mut Session, edit: Edit, handed: Handed) -> Answer {
    let Handed { name, lines } = handed;
    let lines = NewLines::from_lines(alloc, &lines)?;
    let mut meter = fresh_meter();
    match edit {
        Edit::AddFile(_, _) => live.add_file(name, lines, &mut meter),
        Edit::Splice(k, start, count, _) => live.splice(k, start, count, lines, &mut meter),
        _ => live.add_missing(name),
    }
}

/// Makes an edit that is accepted.
fn assert_added(
    rt: &impl Abort,
    alloc: Global,
    live: &mut Session,
    edit: Edit,
) -> Result<(), Fail> {
    let handed = handed_by(alloc, edit)?;
    assert_eq!(rt; add_lines(alloc, live, edit, handed), DONE, "{edit:?}");
    Ok(())
}

/// A session with a pattern, and no file.
fn searching(rt: &impl Abort, alloc: Global) -> Session {
    let mut live = Session::new(alloc, STATES);
    assert_eq!(rt; live.add_patterns(b"a", &mut fresh_meter()), DONE);
    live
}

/// An edit after which this is reported.
type ReportedRow = (Edit, &'static [u8]);

/// The bytes of the longest reply to an edit of these.
const LONGEST: usize = 30;

/// Edits of a session that has a pattern.
static REPORTED: [ReportedRow; 3] = [
    (
        Edit::AddFile("f", b"ab\ncd\nax\n"),
        b"h 0 0 0 3 2\nr 0 - ab\nr 2 - ax\n",
    ),
    (
        Edit::Splice(0, 1, 1, b"aa\nzz\n"),
        b"h 0 1 1 2 1\nr 1 - aa\n",
    ),
    (Edit::AddFile("g", b"a\n"), b"h 1 0 0 1 1\nr 0 - a\n"),
];

/// Makes the edits of the rows in a new session; after each the changes are written up to this
/// number of bytes, if that is not all, and then whole.
fn assert_reported_again(rt: &impl Abort, alloc: Global, room: usize) -> Result<(), Fail> {
    let mut live = searching(rt, alloc);
    for (edit, reply) in &REPORTED {
        assert_added(rt, alloc, &mut live, *edit)?;
        if room < reply.len() {
            let (answer, written) = changes_of(alloc, &mut live, room);
            assert_eq!(rt; answer, Err(WriteFault), "{edit:?}, {room}");
            assert_eq!(rt; written.as_slice(), &reply[..room], "{edit:?}, {room}");
        }
        assert_changes(rt, alloc, &mut live, reply, Status::Selected);
    }
    Ok(())
}

#[test]
fn changes_that_were_not_written_are_reported_again(rt: HostRuntime) -> Result<(), Fail> {
    for room in 0..LONGEST {
        assert_reported_again(&rt, rt.alloc(), room)?;
    }
    Ok(())
}

/// Adds a file after the others while the N-th allocation fails; whether one did. Where it was
/// refused for that, no file was added and nothing changed, and it is added again.
fn assert_file_refused(
    rt: &impl Abort,
    alloc: Global,
    live: &mut Session,
    k: usize,
    edit: Edit,
    n: usize,
) -> Result<bool, Fail> {
    let handed = handed_by(alloc, edit)?;
    let before = live.status();
    refuse(alloc, n)?;
    let given = add_lines(alloc, live, edit, handed);
    let refused = was_refused(alloc);
    if given == Err(EditFault::Memory) {
        assert!(rt; refused, "{edit:?}, {n}");
        assert_eq!(rt; live.drop_file(k), NO_SUCH_FILE, "{edit:?}, {n}");
        assert_changes(rt, alloc, live, b"", before);
        assert_added(rt, alloc, live, edit)?;
    } else {
        assert_eq!(rt; given, DONE, "{edit:?}, {n}");
    }
    Ok(refused)
}

/// A file that is added, what is reported of it where it is the first, and the status after it.
type AddedRow = (Edit, &'static [u8], Status);

static ADDED: [AddedRow; 2] = [
    (
        Edit::AddFile("f", b"ab\ncd\n"),
        b"h 0 0 0 2 1\nr 0 - ab\n",
        Status::Selected,
    ),
    (Edit::AddMissing("g"), b"", Status::Error),
];

/// Refuses each request for memory in turn while the file of a row is added to a new session, until
/// a run meets no refusal.
fn assert_each_refused(rt: &impl Abort, alloc: Global, row: AddedRow) -> Result<(), Fail> {
    let (edit, reply, status) = row;
    for n in 1..=MOST {
        let mut live = searching(rt, alloc);
        let refused = assert_file_refused(rt, alloc, &mut live, 0, edit, n)?;
        assert_changes(rt, alloc, &mut live, reply, status);
        if !refused {
            return Ok(());
        }
    }
    Err(Fail::from("a file asks for memory again and again"))
}

#[test]
fn files_without_memory(rt: HostRuntime) -> Result<(), Fail> {
    for row in &ADDED {
        assert_each_refused(&rt, rt.alloc(), *row)?;
    }
    Ok(())
}
