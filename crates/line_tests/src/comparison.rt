//! Lines in chunks are compared with a plain list.
use super::findings::is_matched;
use line_chunks::{Chunk, KeptLines};
use std::process::Abort;

/// How many bytes a line has at most, with its newline.
const LONGEST: usize = 3;

/// Compares line `place`, and whether it is matched.
fn assert_line<const LIMIT: u32>(
    rt: &impl Abort,
    lines: &KeptLines<LIMIT>,
    place: usize,
    text: &[u8],
    letters: &[u8],
) {
    let there = place < lines.len();
    assert!(rt; there, "line {place}");
    assert_eq!(rt; lines.line(place), text, "line {place}");
    assert_eq!(rt;
        lines.is_matched(place),
        is_matched(text, letters),
        "line {place}"
    );
}

/// A chunk has lines, and takes none that begins beyond its limit.
fn assert_size(rt: &impl Abort, chunk: &Chunk, limit: u32) {
    assert!(rt; chunk.len() > 0, "a chunk has lines");
    assert!(rt;
        chunk.size() <= (limit as usize).saturating_add(LONGEST),
        "a chunk takes no line beyond its limit"
    );
}

/// Compares all lines, and looks at the sizes of all chunks.
pub fn assert_same<const LIMIT: u32>(
    rt: &impl Abort,
    lines: &KeptLines<LIMIT>,
    texts: &[Vec<u8>],
    letters: &[u8],
) {
    assert_eq!(rt; lines.len(), texts.len());
    for place in 0..texts.len() {
        assert_line(rt, lines, place, &texts[place], letters);
    }
    for i in 0..lines.chunk_count() {
        assert_size(rt, lines.chunk(i), LIMIT);
    }
}
