//! What is found in lines: pattern `p` matches the lines that have its letter.
ghost use Rattle.std.specs.Prelude.{◌≡◌, ◌+◌, length, IfOk, IsTrue};
ghost use Rattle.{re_trees.specs.Lines.HasNoNewline, line_chunks.specs.Working.Finds.AreBelow};
ghost use Rattle.line_chunks.specs.Working.Chunks.{FitColumns};

use line_chunks::{Chunk, Found, KeptLines, Matches, SpanLists};
use std::alloc::{AllocError, Global};

/// Whether the line has the letter.
fn has(line: &[u8], letter: u8) -> bool {
    for byte in line {
        if *byte == letter {
            return true;
        }
    }
    false
}

/// Whether some pattern matches the line.
pub fn is_matched(line: &[u8], letters: &[u8]) -> bool {
    for letter in letters {
        if has(line, *letter) {
            return true;
        }
    }
    false
}

/// Notes the patterns that match line `k`.
fn note_line(matches: &mut Matches, k: usize, line: &[u8], letters: &[u8]) -> Result<(), AllocError>
    requires { AreBelow (k + 1) matches.old }
    ensures { IfOk result (λ _. AreBelow (k + 1) matches.new) }
{
    for p in 0..letters.len() {
        if has(line, letters[p]) {
            matches.note(k, p)?;
        }
    }
    Ok(())
}

/// Which patterns match which lines of a chunk.
fn matches_of(alloc: Global, chunk: &Chunk, letters: &[u8]) -> Result<Matches, AllocError>
    ensures { IfOk result (λ matches. AreBelow (length chunk.now) matches) }
{
    let mut matches = Matches::new(alloc);
    for k in 0..chunk.len() {
        note_line(&mut matches, k, chunk.line(k), letters)?;
    }
    Ok(matches)
}

/// What is found in the lines of a chunk.
fn found_in(alloc: Global, chunk: &Chunk, letters: &[u8]) -> Result<Found, AllocError>
    ensures { IfOk result (λ found. found.size ≡ length chunk.now) }
{
    let matches = matches_of(alloc, chunk, letters)?;
    Found::of(alloc, chunk.len(), matches, SpanLists::new(alloc))
}

/// What is found in the lines of each chunk.
fn columns_of<const LIMIT: u32>(
    alloc: Global,
    lines: &KeptLines<LIMIT>,
    letters: &[u8],
) -> Result<Vec<Option<Found>>, AllocError>
    ensures { IfOk result (λ found. FitColumns lines.now found.items) }
{
    let mut columns = Vec::new(alloc);
    for i in 0..lines.chunk_count() {
        let found = found_in(alloc, lines.chunk(i), letters)?;
        columns.push(Some(found))?;
    }
    Ok(columns)
}

/// Puts in place what is found in all lines.
fn find<const LIMIT: u32>(
    alloc: Global,
    lines: &mut KeptLines<LIMIT>,
    letters: &[u8],
) -> Result<(), AllocError> {
    let columns = columns_of(alloc, lines, letters)?;
    lines.put_columns(&mut columns.into_iter());
    Ok(())
}

/// Whether no byte of the line is a newline.
fn is_line(line: &[u8]) -> bool
    ensures { IsTrue result → HasNoNewline line.now }
{
    !line.contains(&b'\n')
}

/// These lines in chunks, with what is found in them. One with a newline in it is left out.
pub fn kept_of<const LIMIT: u32>(
    alloc: Global,
    texts: &[Vec<u8>],
    letters: &[u8],
) -> Result<KeptLines<LIMIT>, AllocError> {
    let mut lines = KeptLines::new(alloc);
    for text in texts {
        if is_line(text) {
            lines.push(alloc, text)?;
        }
    }
    find(alloc, &mut lines, letters)?;
    Ok(lines)
}
