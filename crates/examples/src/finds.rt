//! What is found in lines.
use std::test::Fail;

// crates/line_finds/README.md
use line_finds::{Found, Matches, SpanLists};
use std::alloc::{AllocError, Global};

/// What is found in three lines, the last of which pattern 0 matches.
pub fn found_in_three(alloc: Global) -> Result<Found, AllocError> {
    let mut matches = Matches::new(alloc);
    matches.note(2, 0)?;
    Found::of(alloc, 3, matches, SpanLists::new(alloc))
}
// end

#[test]
fn the_last_line_is_matched(rt: HostRuntime) -> Result<(), Fail> {
    let found = found_in_three(rt.alloc())?;
    assert_eq!(rt; found.hits(), 1);
    Ok(())
}
