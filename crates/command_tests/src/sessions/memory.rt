//! Edits, while each allocation fails in turn, and calls that allocate nothing.
//!
//! Where no library refuses requests, as tools/refuse_growths.sh has it, each is granted, and each
//! edit is made once.
ghost use Rattle.std.specs.Prelude.{◌≤◌};

use super::edits::{Edit, handed_by, make_edit};
use super::harness::{Row, assert_row, assert_same, assert_seen, number_of, observed, written_by};
use super::worked;
use crate::harness::Devices;
use crate::marks::{refuse, was_refused};
use grep_core::Flag;
use grep_session::{EditFault, Session};
use re_auto::fresh_meter;
use re_search::Meter;
use std::alloc::Global;
use std::process::Abort;
use std::test::Fail;

/// How many requests an edit of these sessions makes at most.
const MOST: usize = 2_000;

/// Compares what is seen of a session with its row, while each request for memory is noted: there
/// is none.
fn assert_seen_without_memory(
    rt: &impl Abort,
    alloc: Global,
    session: &Session,
    row: Row,
) -> Result<(), Fail> {
    let mut devices = Devices::roomy(alloc)?;
    refuse(alloc, 1)?;
    let status = written_by(session, &mut devices)?;
    let same = session.status();
    let refused = was_refused(alloc);
    assert!(rt; !refused, "after {:?}", row.0);
    assert_eq!(rt; number_of(same), status);
    assert_seen(rt, &devices.outcome(status), row);
    Ok(())
}

/// Whether the edit of a row may ask for memory: it adds something, reads patterns, makes the
/// findings of all lines anew or takes steps.
fn may_grow(row: Row) -> bool {
    let (edit, answer, _, _, _, most) = row;
    match edit {
        Edit::AddFile(_, _) | Edit::AddMissing(_) | Edit::AddPatterns(_) => true,
        Edit::SetSyntax(_) => true,
        Edit::SetFlag(Flag::IgnoreCase, _) | Edit::SetFlag(Flag::LineRegexp, _) => true,
        _ => answer.is_err() || most > 0,
    }
}

/// Makes the edit of a row while its N-th allocation fails; whether one did. Where the edit was
/// refused for that, the session is as before, and the edit is made again.
fn assert_refusal(
    rt: &impl Abort,
    alloc: Global,
    session: &mut Session,
    meter: &mut Meter,
    row: Row,
    n: usize,
) -> Result<bool, Fail> {
    let (edit, answer, _, _, _, _) = row;
    let before = observed(rt, alloc, session)?;
    let handed = handed_by(alloc, edit)?;
    refuse(alloc, n)?;
    let given = make_edit(alloc, session, edit, handed, meter);
    let refused = was_refused(alloc);
    assert!(rt; !refused || may_grow(row), "{edit:?}");
    if given == Err(EditFault::Memory) {
        assert!(rt; refused, "{edit:?}");
        let now = observed(rt, alloc, session)?;
        assert_same(rt, &now, &before, edit);
        assert_row(rt, alloc, session, meter, row)?;
    } else {
        assert_eq!(rt; given, answer, "{edit:?}");
    }
    assert_seen_without_memory(rt, alloc, session, row)?;
    Ok(refused)
}

/// Makes the edits of the rows in a new session, while the N-th request for memory of the one at
/// `place` is refused; whether one was.
fn assert_refused_at(
    rt: &impl Abort,
    alloc: Global,
    states: usize,
    rows: &'static [Row],
    place: usize,
    n: usize,
) -> Result<bool, Fail>
    requires some { 1 ≤ states }
    requires few { states ≤ 65536 }
{
    let mut session = Session::new(alloc, states);
    let mut meter = fresh_meter();
    let mut refused = false;
    for at in 0..rows.len() {
        let row = rows[at];
        if at == place {
            refused = assert_refusal(rt, alloc, &mut session, &mut meter, row, n)?;
        } else {
            assert_row(rt, alloc, &mut session, &mut meter, row)?;
        }
    }
    Ok(refused)
}

/// Refuses each request for memory of the edit at `place` in turn, until a run meets no refusal.
fn assert_each_refused(
    rt: &impl Abort,
    alloc: Global,
    states: usize,
    rows: &'static [Row],
    place: usize,
) -> Result<(), Fail>
    requires some { 1 ≤ states }
    requires few { states ≤ 65536 }
{
    for n in 1..=MOST {
        if !assert_refused_at(rt, alloc, states, rows, place, n)? {
            return Ok(());
        }
    }
    Err(Fail::from("an edit asks for memory again and again"))
}

/// Refuses each request for memory of each edit of a session in turn.
fn assert_without_memory(rt: &impl Abort, alloc: Global, rows: &'static [Row]) -> Result<(), Fail> {
    for place in 0..rows.len() {
        assert_each_refused(rt, alloc, 1, rows, place)?;
        assert_each_refused(rt, alloc, 4_096, rows, place)?;
    }
    Ok(())
}

#[test]
fn edits_without_memory(rt: HostRuntime) -> Result<(), Fail> {
    for rows in worked::sessions() {
        assert_without_memory(&rt, rt.alloc(), rows)?;
    }
    Ok(())
}
