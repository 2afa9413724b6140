//! Lines in chunks.
use std::test::Fail;

// crates/line_chunks/README.md
use line_chunks::KeptLines;
use std::alloc::{AllocError, Global};

/// Two lines, the first of which is replaced by another.
pub fn replaced(alloc: Global) -> Result<KeptLines<65_536>, AllocError> {
    let mut lines = KeptLines::new(alloc);
    lines.push(alloc, b"one")?;
    lines.push(alloc, b"two")?;
    let mut new = KeptLines::new(alloc);
    new.push(alloc, b"three")?;
    lines.splice(alloc, 0, 1, &new)?;
    Ok(lines)
}
// end

#[test]
fn the_first_line_is_replaced(rt: HostRuntime) -> Result<(), Fail> {
    let lines = replaced(rt.alloc())?;
    assert_eq!(rt; lines.len(), 2);
    assert_eq!(rt; lines.line(0), &b"three"[..]);
    assert_eq!(rt; lines.line(1), &b"two"[..]);
    Ok(())
}
