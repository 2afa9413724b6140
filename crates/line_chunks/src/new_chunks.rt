//! New chunks of the lines of others.
ghost use Rattle.std.specs.Prelude.{◌≡◌, ℕ, ◌+◌, ◌<◌, ◌≤◌, [], ◌∷◌, ◌++◌, length, take, drop};
ghost use Rattle.std.specs.Prelude.{get_or, IfOk, slice_range};
ghost use Rattle.line_chunks.specs.Working.Chunks.{AreFilled, AreFull, IsLastFull, all_of};
ghost use Rattle.line_chunks.specs.Working.Sums.{AddsLines, chunks_of};

use crate::chunk::Chunk;
use crate::entries::Entry;
use std::alloc::{AllocError, Global};

/// How new chunks are filled.
#[derive(Clone, Copy, Drop)]
pub struct Filling {
    /// Where their memory comes from.
    pub alloc: Global,
    /// With so many bytes of text a chunk takes no further line.
    pub limit: usize,
}

/// The two ends of the lines that are replaced.
#[derive(Clone, Copy, Drop)]
pub struct Seams {
    /// The chunk at their beginning.
    pub first: usize,
    /// How many of its lines are before them; these stay.
    pub before: usize,
    /// The chunk at their end.
    pub last: usize,
    /// How many of its lines are before their end; the others stay.
    pub after: usize,
}

/// The number of bytes that the last chunk still takes.
fn room_of(entries: &[Entry], limit: usize) -> usize
    ensures some { 0 < result → 0 < length entries.now }
    ensures full { result ≡ 0 → IsLastFull limit (chunks_of entries.now) }
{
    let count = entries.len();
    if count == 0 {
        return 0;
    }
    let size = entries[count - 1].chunk.size();
    limit.saturating_sub(size)
}

/// The room that is asked for besides what is expected, in bytes.
const MARGIN: usize = 128;

/// Where a piece ends of the lines from `from` up to `to`: at the first line that does not begin
/// within so many bytes. It has one line at least.
fn piece_end(chunk: &Chunk, from: usize, to: usize, room: usize) -> usize
    requires in_order { from < to }
    requires within { to ≤ length chunk.now }
    ensures more { from < result }
    ensures within { result ≤ to }
{
    let place = chunk.start(from).saturating_add(room);
    let end = chunk.number_at(from, place);
    if end <= from {
        return from + 1;
    }
    if end > to {
        return to;
    }
    end
}

/// Adds a chunk of some lines of another one, with room for the bytes of a full one and some more.
fn add_new(
    filling: Filling,
    fresh: &mut Vec<Entry>,
    chunk: &Chunk,
    from: usize,
    to: usize,
) -> Result<(), AllocError>
    requires full { IsLastFull filling.limit (chunks_of fresh.old.items) }
    requires in_order { from < to }
    requires within { to ≤ length chunk.now }
    ensures { IfOk result (λ _.
        AddsLines filling.limit fresh.old.items (slice_range chunk.now from to) fresh.new.items) }
{
    let mut own = Chunk::with_room(filling.alloc, filling.limit.saturating_add(MARGIN))?;
    own.add_part(chunk, from, to)?;
    fresh.push(Entry {
        chunk: own,
        end: 0,
        hits: 0,
    })?;
    Ok(())
}

/// Adds some lines of another chunk to an entry's.
fn extend(entry: &mut Entry, chunk: &Chunk, from: usize, to: usize) -> Result<(), AllocError>
    requires in_order { from ≤ to }
    requires within { to ≤ length chunk.now }
    ensures { IfOk result (λ _. entry.new.chunk ≡ entry.old.chunk ++ slice_range chunk.now from to) }
{
    entry.chunk.add_part(chunk, from, to)?;
    Ok(())
}

/// Adds some lines to the last chunk.
fn extend_last(
    fresh: &mut Vec<Entry>,
    chunk: &Chunk,
    from: usize,
    to: usize,
) -> Result<(), AllocError>
    requires some { 0 < length fresh.old.items }
    requires in_order { from ≤ to }
    requires within { to ≤ length chunk.now }
    ensures { IfOk result (λ _. (limit : ℕ) →
        AddsLines limit fresh.old.items (slice_range chunk.now from to) fresh.new.items) }
{
    let last = fresh.len() - 1;
    extend(&mut fresh[last], chunk, from, to)
}

/// Adds as many of the lines from `from` up to `to` as the last chunk takes, or a new one if that is
/// full. The result is where the others begin.
fn add_piece(
    filling: Filling,
    fresh: &mut Vec<Entry>,
    chunk: &Chunk,
    from: usize,
    to: usize,
) -> Result<usize, AllocError>
    requires in_order { from < to }
    requires within { to ≤ length chunk.now }
    ensures more { IfOk result (λ at. from < at) }
    ensures within { IfOk result (λ at. at ≤ to) }
    ensures lines { IfOk result (λ at.
        AddsLines filling.limit fresh.old.items (slice_range chunk.now from at) fresh.new.items) }
{
    let room = room_of(fresh, filling.limit);
    if room == 0 {
        let at = piece_end(chunk, from, to, filling.limit);
        add_new(filling, fresh, chunk, from, at)?;
        return Ok(at);
    }
    let at = piece_end(chunk, from, to, room);
    extend_last(fresh, chunk, from, at)?;
    Ok(at)
}

/// Adds the lines of a chunk from `from` up to `to`.
fn add_lines(
    filling: Filling,
    fresh: &mut Vec<Entry>,
    chunk: &Chunk,
    from: usize,
    to: usize,
) -> Result<(), AllocError>
    requires in_order { from ≤ to }
    requires within { to ≤ length chunk.now }
    ensures { IfOk result (λ _.
        AddsLines filling.limit fresh.old.items (slice_range chunk.now from to) fresh.new.items) }
{
    let mut at = from;
    while at < to {
        at = add_piece(filling, fresh, chunk, at, to)?;
    }
    Ok(())
}

/// Adds the lines of chunk `k` from `from` up to `to`.
fn add_part(
    filling: Filling,
    fresh: &mut Vec<Entry>,
    entries: &[Entry],
    k: usize,
    from: usize,
    to: usize,
) -> Result<(), AllocError>
    requires in_order { from ≤ to }
    requires within { to ≤ length (get_or (chunks_of entries.now) k []) }
    ensures { IfOk result (λ _. AddsLines filling.limit fresh.old.items
        (slice_range (get_or (chunks_of entries.now) k []) from to) fresh.new.items) }
{
    if from >= to {
        return Ok(());
    }
    let entry = &entries[k];
    add_lines(filling, fresh, &entry.chunk, from, to)
}

/// Adds the lines of all these chunks.
fn add_all(filling: Filling, fresh: &mut Vec<Entry>, entries: &[Entry]) -> Result<(), AllocError>
    ensures { IfOk result (λ _.
        AddsLines filling.limit fresh.old.items (all_of (chunks_of entries.now)) fresh.new.items) }
{
    for entry in entries {
        let size = entry.chunk.len();
        add_lines(filling, fresh, &entry.chunk, 0, size)?;
    }
    Ok(())
}

/// The number of lines of chunk `k`, and none if there is no such chunk.
pub fn size_at(entries: &[Entry], k: usize) -> usize
    ensures { result ≡ length (get_or (chunks_of entries.now) k []) }
{
    if k < entries.len() {
        return entries[k].chunk.len();
    }
    0
}

/// Chunks of the lines of chunk `first` that stay, of new lines, and of those of chunk `last` that
/// stay.
pub fn build(
    filling: Filling,
    entries: &[Entry],
    seams: Seams,
    new: &[Entry],
) -> Result<Vec<Entry>, AllocError>
    requires before_within { seams.before ≤ length (get_or (chunks_of entries.now) seams.first []) }
    requires after_within { seams.after ≤ length (get_or (chunks_of entries.now) seams.last []) }
    ensures filled { IfOk result (λ fresh. AreFilled (chunks_of fresh.items)) }
    ensures full { IfOk result (λ fresh. AreFull filling.limit (chunks_of fresh.items)) }
    ensures lines { IfOk result (λ fresh. all_of (chunks_of fresh.items) ≡
        take seams.before (get_or (chunks_of entries.now) seams.first []) ++
        (all_of (chunks_of new.now) ++ drop seams.after (get_or (chunks_of entries.now) seams.last []))) }
{
    let mut fresh = Vec::new(filling.alloc);
    add_part(filling, &mut fresh, entries, seams.first, 0, seams.before)?;
    add_all(filling, &mut fresh, new)?;
    let size = size_at(entries, seams.last);
    add_part(filling, &mut fresh, entries, seams.last, seams.after, size)?;
    Ok(fresh)
}
