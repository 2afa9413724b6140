//! Sessions that are edited.
use grep_core::Tally;
use re_syntax::split_file;

// crates/grep_session/README.md
use grep_core::{CountedWrite, Status};
use grep_session::{NewLines, Session};
use re_auto::fresh_meter;
use std::alloc::Global;
use std::test::Fail;

/// Puts lines into an empty file, and writes what grep finds with `a`.
fn found(alloc: Global, lines: NewLines, out: &mut impl CountedWrite) -> Result<Status, Fail> {
    let mut meter = fresh_meter();
    let mut session = Session::new(alloc, 256);
    session.add_file(Vec::new(alloc), NewLines::new(alloc), &mut meter)?;
    session.add_patterns(b"a", &mut meter)?;
    session.splice(0, 0, 0, lines, &mut meter)?;
    Ok(session.report(b"", out)?)
}
// end

/// The lines `ab`, `c` and `ca`.
fn lines(alloc: Global) -> Result<NewLines, Fail> {
    let mut lines = Vec::new(alloc);
    for line in split_file(b"ab\nc\nca\n") {
        lines.push(Vec::from_slice(alloc, line)?)?;
    }
    Ok(NewLines::from_lines(alloc, &lines)?)
}

#[test]
fn new_lines_are_searched(rt: HostRuntime) -> Result<(), Fail> {
    let mut out = Tally::new(Vec::new(rt.alloc()));
    let status = found(rt.alloc(), lines(rt.alloc())?, &mut out)?;
    assert!(rt; status == Status::Selected);
    assert!(rt; out.into_inner().as_slice() == b"ab\nca\n".as_slice());
    Ok(())
}
