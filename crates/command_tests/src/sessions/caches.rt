//! How many states a session keeps.
ghost use Rattle.std.specs.Prelude.{◌≤◌};

use grep_session::{Caches, NewLines, Session};
use re_auto::fresh_meter;
use std::alloc::Global;
use std::process::Abort;
use std::test::Fail;

/// What is kept after a long line was searched for two patterns, each of which may keep `states`
/// states.
fn searched(alloc: Global, states: usize) -> Result<Caches, Fail>
    requires some { 1 ≤ states }
    requires few { states ≤ 65536 }
{
    let mut meter = fresh_meter();
    let mut session = Session::new(alloc, states);
    session.add_patterns(b"ab*e\nab*t", &mut meter)?;
    let mut lines = Vec::new(alloc);
    lines.push(vec![in alloc; b'a'; 1_000]?)?;
    let lines = NewLines::from_lines(alloc, &lines)?;
    session.add_file(Vec::new(alloc), lines, &mut meter)?;
    Ok(session.cached())
}

/// Compares what is kept.
fn assert_kept(rt: &impl Abort, caches: Caches, kept: usize, each: usize) {
    assert!(rt; caches.kept == kept);
    assert!(rt; caches.each == each);
}

#[test]
fn a_session_keeps_the_states_that_it_may(rt: HostRuntime) -> Result<(), Fail> {
    let alloc = rt.alloc();
    assert_kept(&rt, searched(alloc, 1)?, 2, 1);
    assert_kept(&rt, searched(alloc, 2)?, 4, 2);
    assert_kept(&rt, searched(alloc, 4_096)?, 4, 4_096);
    Ok(())
}
