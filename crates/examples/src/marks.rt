//! Marks of files.
use std::test::Fail;

// crates/line_marks/README.md
use line_marks::Mark;

/// The mark of a file of ten lines, after its first and its last line were replaced.
pub fn both_ends() -> Mark {
    let mut mark = Mark::new(10);
    mark.report();
    mark.splice(0, 1, 1);
    mark.splice(9, 1, 1);
    mark
}
// end

#[test]
fn both_ends_are_stretches(rt: HostRuntime) -> Result<(), Fail> {
    let mark = both_ends();
    assert_eq!(rt; mark.lines(), 10);
    assert_eq!(rt; mark.stretches().len(), 2);
    assert_eq!(rt; mark.stretches()[1].kept, 8);
    Ok(())
}
