//! Splices of lines in chunks and of a plain list, and many splices after which chunks have their size.
use super::comparison::assert_same;
use super::findings::kept_of;
use line_chunks::KeptLines;
use std::alloc::{AllocError, Global};
use std::process::Abort;
use std::test::Fail;

/// How many splices are made.
const SPLICES: usize = 500;

/// The most bytes of a chunk to which lines are added.
const LIMIT: u32 = 64;

/// This number of lines of two letters.
pub fn texts_of(alloc: Global, count: usize) -> Result<Vec<Vec<u8>>, AllocError> {
    let mut texts = Vec::new(alloc);
    for k in 0..count {
        let line = Vec::from_slice(alloc, if k % 2 == 0 { &b"ab"[..] } else { b"ca" })?;
        texts.push(line)?;
    }
    Ok(texts)
}

/// Puts lines in the place of `count` from `start` on, where these are there; whether they are.
pub fn splice_kept<const LIMIT: u32>(
    alloc: Global,
    lines: &mut KeptLines<LIMIT>,
    start: usize,
    count: usize,
    new: &KeptLines<LIMIT>,
) -> Result<bool, AllocError> {
    let all = lines.len();
    if start > all || count > all - start {
        return Ok(false);
    }
    lines.splice(alloc, start, count, new)?;
    Ok(true)
}

/// Puts lines in the place of `count` from `start` on in a plain list, where these are there;
/// whether they are.
pub fn splice_plain(
    texts: &mut Vec<Vec<u8>>,
    start: usize,
    count: usize,
    new: Vec<Vec<u8>>,
) -> Result<bool, AllocError> {
    let all = texts.len();
    if start > all || count > all - start {
        return Ok(false);
    }
    texts.splice(start..start + count, new)?;
    Ok(true)
}

/// Makes the splice with this number in both.
fn splice_both(
    rt: &impl Abort,
    alloc: Global,
    lines: &mut KeptLines<LIMIT>,
    texts: &mut Vec<Vec<u8>>,
    k: usize,
) -> Result<(), Fail> {
    let start = (k % 50).min(texts.len());
    let count = (k % 4).min(texts.len().saturating_sub(start));
    let fresh = texts_of(alloc, k % 5)?;
    let kept = kept_of(alloc, &fresh, b"ab")?;
    assert!(rt;
        splice_kept(alloc, lines, start, count, &kept)?,
        "splice {k}"
    );
    splice_plain(texts, start, count, fresh)?;
    Ok(())
}

#[test]
fn chunks_have_their_size_after_splices(rt: HostRuntime) -> Result<(), Fail> {
    let mut texts = Vec::new(rt.alloc());
    let mut lines = KeptLines::new(rt.alloc());
    for k in 0..SPLICES {
        splice_both(&rt, rt.alloc(), &mut lines, &mut texts, k)?;
        assert_same(&rt, &lines, &texts, b"ab");
    }
    Ok(())
}
