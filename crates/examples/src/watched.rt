//! Sessions that an editor watches.
use grep_core::Tally;
use re_auto::fresh_meter;
use re_syntax::split_file;
use std::alloc::Global;

// crates/grep_live/README.md
use grep_core::{CountedWrite, Status};
use grep_live::{RowForm, changes};
use grep_session::{Meter, NewLines, Session};
use std::test::Fail;

/// Replaces line 1 of file 0, and writes what changed since the last call.
fn replaced(
    session: &mut Session,
    lines: NewLines,
    meter: &mut Meter,
    out: &mut impl CountedWrite,
) -> Result<Status, Fail> {
    session.splice(0, 1, 1, lines, meter)?;
    let form = RowForm {
        margin: b"",
        has_text: true,
    };
    Ok(changes(session, form, out)?)
}
// end

/// The lines of a text.
fn lines(alloc: Global, text: &[u8]) -> Result<NewLines, Fail> {
    let mut lines = Vec::new(alloc);
    for line in split_file(text) {
        lines.push(Vec::from_slice(alloc, line)?)?;
    }
    Ok(NewLines::from_lines(alloc, &lines)?)
}

/// A session of the lines `ab`, `c` and `ca` and the pattern `a`.
fn watched(alloc: Global, meter: &mut Meter) -> Result<Session, Fail> {
    let mut session = Session::new(alloc, 256);
    session.add_file(Vec::new(alloc), lines(alloc, b"ab\nc\nca\n")?, meter)?;
    session.add_patterns(b"a", meter)?;
    Ok(session)
}

/// Writes what changed of this session at first, and after its line 1 was replaced.
fn both(alloc: Global, meter: &mut Meter, out: &mut impl CountedWrite) -> Result<Status, Fail> {
    let mut session = watched(alloc, meter)?;
    let form = RowForm {
        margin: b"",
        has_text: true,
    };
    changes(&mut session, form, out)?;
    replaced(&mut session, lines(alloc, b"d\naa\n")?, meter, out)
}

#[test]
fn a_replaced_line_is_reported(rt: HostRuntime) -> Result<(), Fail> {
    let mut out = Tally::new(Vec::new(rt.alloc()));
    let status = both(rt.alloc(), &mut fresh_meter(), &mut out)?;
    assert!(rt; status == Status::Selected);
    let text = b"h 0 0 0 3 2\nr 0 - ab\nr 2 - ca\nh 0 1 1 2 1\nr 2 - aa\n";
    assert!(rt; out.into_inner().as_slice() == text.as_slice());
    Ok(())
}
