//! Sessions by their rows.
use super::edits::{Answer, Edit, handed_by, make_edit};
use crate::harness::{Devices, Outcome, UNLIMITED};
use grep_core::Status;
use grep_session::{EditFault, Session};
use re_auto::fresh_meter;
use re_search::Meter;
use std::alloc::Global;
use std::process::Abort;
use std::test::Fail;

/// An edit; its answer; the report, the messages and the exit status after it; how many steps it
/// takes at most.
pub type Row = (Edit, Answer, &'static [u8], &'static [u8], u8, u64);

/// An edit is accepted.
pub const DONE: Answer = Ok(());

/// Nothing is said of the steps.
pub const ANY: u64 = u64::MAX;

pub const NO_SUCH_FILE: Answer = Err(EditFault::NoSuchFile);

pub const FILE_IS_MISSING: Answer = Err(EditFault::FileIsMissing);

pub const OUT_OF_RANGE: Answer = Err(EditFault::OutOfRange);

pub const LINE_HAS_NEWLINE: Answer = Err(EditFault::LineHasNewline);

/// How many states each matcher of a session keeps.
pub const STATES: usize = 16;

/// The number of an exit status.
pub fn number_of(status: Status) -> u8 {
    match status {
        Status::Selected => 0,
        Status::NoneSelected => 1,
        Status::Error => 2,
    }
}

/// All steps that were counted.
pub fn steps_of(meter: &Meter) -> u64 {
    meter.built().saturating_add(meter.reused())
}

/// Writes the report and the messages of the session; the exit status that the report answers.
pub fn written_by(session: &Session, devices: &mut Devices) -> Result<u8, Fail> {
    let Ok(status) = session.report(b"", &mut devices.out) else {
        return Err(Fail::from("the report was not written"));
    };
    let Ok(()) = session.messages(b"", &mut devices.messages) else {
        return Err(Fail::from("the messages were not written"));
    };
    Ok(number_of(status))
}

/// The report, the messages and the exit status of the session.
pub fn observed(rt: &impl Abort, alloc: Global, session: &Session) -> Result<Outcome<u8>, Fail> {
    let mut devices = Devices::new(alloc, UNLIMITED);
    let status = written_by(session, &mut devices)?;
    assert_eq!(rt; status, number_of(session.status()));
    Ok(devices.outcome(status))
}

/// Compares what is seen of a session with what was seen of it, or of its inputs.
pub fn assert_same(rt: &impl Abort, now: &Outcome<u8>, wanted: &Outcome<u8>, edit: Edit) {
    assert_eq!(rt; now.output.as_slice(), wanted.output.as_slice(), "{edit:?}");
    assert_eq!(rt;
        now.messages.as_slice(),
        wanted.messages.as_slice(),
        "{edit:?}"
    );
    assert_eq!(rt; now.answer, wanted.answer, "{edit:?}");
}

/// Compares what is seen of a session with its row.
pub fn assert_seen(rt: &impl Abort, now: &Outcome<u8>, row: Row) {
    let (edit, _, report, messages, status, _) = row;
    assert_eq!(rt; now.output.as_slice(), report, "{edit:?}");
    assert_eq!(rt; now.messages.as_slice(), messages, "{edit:?}");
    assert_eq!(rt; now.answer, status, "{edit:?}");
}

/// Makes the edit of a row, and compares its answer, its steps and what is seen of the session. A
/// refused edit takes no step and leaves what was seen.
pub fn assert_row(
    rt: &impl Abort,
    alloc: Global,
    session: &mut Session,
    meter: &mut Meter,
    row: Row,
) -> Result<(), Fail> {
    let (edit, answer, _, _, _, most) = row;
    let before = observed(rt, alloc, session)?;
    let handed = handed_by(alloc, edit)?;
    let begun = steps_of(meter);
    let given = make_edit(alloc, session, edit, handed, meter);
    let steps = steps_of(meter).saturating_sub(begun);
    assert_eq!(rt; given, answer, "{edit:?}");
    assert!(rt; steps <= most, "{edit:?}: {steps} steps");
    let now = observed(rt, alloc, session)?;
    assert_seen(rt, &now, row);
    if given.is_err() {
        assert_eq!(rt; steps, 0, "{edit:?}");
        assert_same(rt, &now, &before, edit);
    }
    Ok(())
}
