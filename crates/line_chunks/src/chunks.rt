//! What is done with the chunks of a file.
ghost use Rattle.std.specs.Prelude.{IfOk, length, slice_set, ◌+◌, OnErr, drop, ◌-◌, ◌*◌, map};
ghost use Rattle.std.specs.Prelude.{get_or, ◌++◌, [], ◌≤◌, ◌^◌, ◌≡◌, ℕ, ◌<◌, ◌∷◌, take};
ghost use Rattle.std.specs.List.{splice, remove_range};
ghost use Rattle.re_trees.specs.Lines.{HasNoNewline};
ghost use Rattle.line_chunks.specs.Working.Chunks.{matched_count, has_room, AreFilled, new_line};
ghost use Rattle.line_chunks.specs.Working.{Chunks.{with_line, MakesFull, all_of}, Sums.AreSummed};
ghost use Rattle.line_chunks.specs.Working.Sums.{chunks_of, IsSummedTo};

use crate::chunk::Chunk;
use crate::entries::{Entry, find_seam, lines_before, matched_before, sum_from};
use crate::new_chunks::{Filling, Seams, build, size_at};
use std::alloc::{AllocError, Global};

/// Adds a line to an entry's chunk.
fn add_to(entry: &mut Entry, line: &[u8]) -> Result<(), AllocError>
    requires free { HasNoNewline line.now }
    requires few { entry.old.end + 1 < 2 ^ 64 }
    ensures ok { IfOk result (λ _. entry.new ≡ record {
      chunk = entry.old.chunk ++ new_line line.now ∷ [];
      end = entry.old.end + 1;
      hits = entry.old.hits;
    }) }
    ensures err { OnErr result (entry.new ≡ entry.old) }
{
    entry.chunk.push(line)?;
    entry.end += 1;
    Ok(())
}

/// Adds a line to the last chunk.
fn add_to_last(entries: &mut Vec<Entry>, k: usize, line: &[u8]) -> Result<(), AllocError>
    requires free { HasNoNewline line.now }
    requires last { k + 1 ≡ length entries.old.items }
    requires summed { AreSummed 0 0 entries.old.items }
    requires few { length (all_of (chunks_of entries.old.items)) + 1 < 2 ^ 64 }
    ensures ok { IfOk result (λ _. chunks_of entries.new.items ≡ slice_set (chunks_of entries.old.items) k
        (get_or (chunks_of entries.old.items) k [] ++ new_line line.now ∷ [])) }
    ensures err { OnErr result (entries.new.items ≡ entries.old.items) }
    ensures summed { AreSummed 0 0 entries.new.items }
{
    add_to(&mut entries[k], line)
}

/// The number of bytes that a chunk after `count` others is made for: a file of one chunk may be
/// small, and one of several chunks most likely fills the next one too.
fn room_after(count: usize, limit: usize) -> usize {
    if count == 0 {
        return 0;
    }
    limit
}

/// Adds a chunk of one line.
fn add_chunk(
    alloc: Global,
    entries: &mut Vec<Entry>,
    limit: usize,
    line: &[u8],
) -> Result<(), AllocError>
    requires free { HasNoNewline line.now }
    requires summed { AreSummed 0 0 entries.old.items }
    requires few { length (all_of (chunks_of entries.old.items)) + 1 < 2 ^ 64 }
    ensures ok { IfOk result (λ _. chunks_of entries.new.items ≡
        chunks_of entries.old.items ++ (new_line line.now ∷ []) ∷ []) }
    ensures err { OnErr result (entries.new.items ≡ entries.old.items) }
    ensures summed { AreSummed 0 0 entries.new.items }
{
    let count = entries.len();
    let end = lines_before(entries, count) + 1;
    let hits = matched_before(entries, count);
    let mut chunk = Chunk::with_room(alloc, room_after(count, limit))?;
    chunk.push(line)?;
    entries.push(Entry { chunk, end, hits })?;
    Ok(())
}

/// Whether an entry's chunk has at most `limit` bytes with the line and its newline.
fn takes(entry: &Entry, limit: usize, line: &[u8]) -> bool
    ensures { result ≡ has_room limit entry.now.chunk line.now }
{
    entry.chunk.size().saturating_add(line.len()) < limit
}

/// Adds a line after all others: to the last chunk, if it has at most `limit` bytes then, and
/// otherwise as a chunk of its own.
pub fn add_line(
    alloc: Global,
    entries: &mut Vec<Entry>,
    limit: usize,
    line: &[u8],
) -> Result<(), AllocError>
    requires free { HasNoNewline line.now }
    requires summed { AreSummed 0 0 entries.old.items }
    ensures ok { IfOk result (λ _. chunks_of entries.new.items ≡
        with_line limit (chunks_of entries.old.items) (new_line line.now)) }
    ensures err { OnErr result (entries.new.items ≡ entries.old.items) }
    ensures summed { AreSummed 0 0 entries.new.items }
{
    let count = entries.len();
    if lines_before(entries, count) == usize::MAX {
        return Err(AllocError);
    }
    if count > 0 && takes(&entries[count - 1], limit, line) {
        return add_to_last(entries, count - 1, line);
    }
    add_chunk(alloc, entries, limit, line)
}

/// Puts chunks in the place of others.
fn put_chunks(
    entries: &mut Vec<Entry>,
    from: usize,
    to: usize,
    fresh: Vec<Entry>,
) -> Result<(), AllocError>
    requires in_order { from ≤ to }
    requires within { to ≤ length entries.old.items }
    ensures ok { IfOk result (λ _. entries.new.items ≡ splice entries.old.items from to fresh.items) }
    ensures err { OnErr result (entries.new.items ≡ entries.old.items) }
{
    entries.splice(from..to, fresh)?;
    Ok(())
}

/// The number of bytes of the first `offset` lines of chunk `k`, and none if there is no such chunk.
fn bytes_before(entries: &[Entry], k: usize, offset: usize) -> usize
    requires { offset ≤ length (get_or (chunks_of entries.now) k []) }
{
    if k < entries.len() {
        return entries[k].chunk.start(offset);
    }
    0
}

/// The number of bytes of the lines of chunk `k` after the first `offset`, and none if there is no
/// such chunk.
fn bytes_after(entries: &[Entry], k: usize, offset: usize) -> usize
    requires { offset ≤ length (get_or (chunks_of entries.now) k []) }
{
    if k < entries.len() {
        let start = entries[k].chunk.start(offset);
        return entries[k].chunk.size().saturating_sub(start);
    }
    0
}

/// The number of bytes of all chunks, or the largest number.
fn bytes_of(entries: &[Entry]) -> usize {
    let mut bytes: usize = 0;
    for entry in entries {
        bytes = bytes.saturating_add(entry.chunk.size());
    }
    bytes
}

/// The limit at which so many bytes fill chunks evenly: a chunk that grows beyond the limit becomes
/// two halves, and not a full one and a remainder.
fn even_limit(limit: usize, bytes: usize) -> usize
    ensures few { result ≤ limit }
    ensures half { limit ≤ 2 * result }
{
    if limit == 0 {
        return 0;
    }
    let chunks = (bytes / limit).saturating_add(1);
    if chunks < 2 {
        return limit;
    }
    (bytes / chunks).saturating_add(1).min(limit)
}

/// The limit at which chunks are filled evenly if they are made of the lines of chunk `first` that
/// stay, of new lines, and of those of chunk `last` that stay.
fn limit_of(limit: usize, entries: &[Entry], seams: Seams, new: &[Entry]) -> usize
    requires before_within { seams.before ≤ length (get_or (chunks_of entries.now) seams.first []) }
    requires after_within { seams.after ≤ length (get_or (chunks_of entries.now) seams.last []) }
    ensures few { result ≤ limit }
    ensures half { limit ≤ 2 * result }
{
    let before = bytes_before(entries, seams.first, seams.before);
    let after = bytes_after(entries, seams.last, seams.after);
    let bytes = before.saturating_add(after).saturating_add(bytes_of(new));
    even_limit(limit, bytes)
}

/// Where the chunks after chunk `k` begin: after the last one if that is not there.
fn chunk_end(count: usize, k: usize) -> usize
    ensures within { result ≤ count }
    ensures next { k < count → result ≡ k + 1 }
    ensures last { count ≤ k → result ≡ count }
{
    if k < count {
        return k + 1;
    }
    count
}

/// Puts the lines of other chunks in the place of `count` lines from `start` on.
pub fn insert(
    filling: Filling,
    entries: &mut Vec<Entry>,
    start: usize,
    count: usize,
    new: &[Entry],
) -> Result<(), AllocError>
    requires summed { AreSummed 0 0 entries.old.items }
    requires within { start + count ≤ length (all_of (chunks_of entries.old.items)) }
    requires few { length (all_of (chunks_of entries.old.items)) < 2 ^ 64 }
    requires few_new { length (all_of (chunks_of entries.old.items)) - count +
        length (all_of (chunks_of new.now)) < 2 ^ 64 }
    ensures ok { IfOk result (λ _. all_of (chunks_of entries.new.items) ≡
        splice (all_of (chunks_of entries.old.items)) start (start + count) (all_of (chunks_of new.now))) }
    ensures err { OnErr result (entries.new.items ≡ entries.old.items) }
    ensures summed { AreSummed 0 0 entries.new.items }
    ensures filled { AreFilled (chunks_of entries.old.items) → AreFilled (chunks_of entries.new.items) }
    ensures made { IfOk result (λ _. 0 < length (all_of (chunks_of new.now)) →
        MakesFull filling.limit (chunks_of entries.old.items) (chunks_of entries.new.items)) }
{
    let (first, before) = find_seam(entries, start);
    let (last, after) = find_seam(entries, start + count);
    let seams = Seams {
        first,
        before,
        last,
        after,
    };
    let limit = limit_of(filling.limit, entries, seams, new);
    let fresh = build(Filling { limit, ..filling }, entries, seams, new)?;
    let end = chunk_end(entries.len(), last);
    put_chunks(entries, first, end, fresh)?;
    sum_from(entries, first);
    Ok(())
}

/// Removes the lines of an entry's chunk from `from` up to `to`.
fn remove_from(entry: &mut Entry, from: usize, to: usize)
    requires in_order { from ≤ to }
    requires within { to ≤ length entry.old.chunk }
    ensures { entry.new.chunk ≡ remove_range entry.old.chunk from to }
{
    entry.chunk.remove(from, to);
}

/// Removes the lines of chunk `k` from `from` up to `to`.
fn remove_at(entries: &mut Vec<Entry>, k: usize, from: usize, to: usize)
    requires there { k < length entries.old.items }
    requires in_order { from ≤ to }
    requires within { to ≤ length (get_or (chunks_of entries.old.items) k []) }
    ensures chunks { chunks_of entries.new.items ≡ slice_set (chunks_of entries.old.items) k
        (remove_range (get_or (chunks_of entries.old.items) k []) from to) }
    ensures summed { (n : ℕ) → n ≤ k → IsSummedTo entries.old.items n → IsSummedTo entries.new.items n }
{
    remove_from(&mut entries[k], from, to);
}

/// Removes the chunks from `from` up to `to`.
fn remove_chunks(entries: &mut Vec<Entry>, from: usize, to: usize)
    requires in_order { from ≤ to }
    requires within { to ≤ length entries.old.items }
    ensures items { entries.new.items ≡ remove_range entries.old.items from to }
    ensures summed { (n : ℕ) → n ≤ from → IsSummedTo entries.old.items n → IsSummedTo entries.new.items n }
{
    entries.drain(from..to);
}

/// Removes the lines after the first `before` of chunk `first` up to the first `after` of chunk
/// `last`, and these.
fn remove_between(entries: &mut Vec<Entry>, first: usize, before: usize, last: usize, after: usize)
    requires in_order { first < last }
    requires there { last < length entries.old.items }
    requires before_within { before ≤ length (get_or (chunks_of entries.old.items) first []) }
    requires after_within { after ≤ length (get_or (chunks_of entries.old.items) last []) }
    ensures chunks { chunks_of entries.new.items ≡ take first (chunks_of entries.old.items) ++
        (take before (get_or (chunks_of entries.old.items) first []) ∷
        drop after (get_or (chunks_of entries.old.items) last []) ∷
        drop (last + 1) (chunks_of entries.old.items)) }
    ensures summed { IsSummedTo entries.old.items first → IsSummedTo entries.new.items first }
{
    remove_at(entries, last, 0, after);
    let size = size_at(entries, first);
    remove_at(entries, first, before, size);
    remove_chunks(entries, first + 1, last);
}

/// Removes `count` lines from `start` on. The result is the first chunk that has changed.
fn remove_lines(entries: &mut Vec<Entry>, start: usize, count: usize) -> usize
    requires summed { AreSummed 0 0 entries.old.items }
    requires within { start + count ≤ length (all_of (chunks_of entries.old.items)) }
    requires few { length (all_of (chunks_of entries.old.items)) < 2 ^ 64 }
    ensures lines { all_of (chunks_of entries.new.items) ≡
        remove_range (all_of (chunks_of entries.old.items)) start (start + count) }
    ensures summed { IsSummedTo entries.new.items result }
    ensures filled { AreFilled (chunks_of entries.old.items) →
        AreFilled (take result (chunks_of entries.new.items)) ×
        AreFilled (drop (result + 2) (chunks_of entries.new.items)) }
{
    if entries.is_empty() {
        return 0;
    }
    let (first, before) = find_seam(entries, start);
    let (last, after) = find_seam(entries, start + count);
    if first == last {
        remove_at(entries, first, before, after);
        return first;
    }
    remove_between(entries, first, before, last, after);
    first
}

/// Removes chunk `k` if it is there and has no lines.
fn drop_empty(entries: &mut Vec<Entry>, k: usize)
    ensures lines { all_of (chunks_of entries.new.items) ≡ all_of (chunks_of entries.old.items) }
    ensures summed { (n : ℕ) → n ≤ k → IsSummedTo entries.old.items n → IsSummedTo entries.new.items n }
    ensures filled { (n : ℕ) → n ≤ k → AreFilled (take n (chunks_of entries.old.items)) →
        AreFilled (drop (k + 1) (chunks_of entries.old.items)) →
        AreFilled (take n (chunks_of entries.new.items)) ×
        AreFilled (drop k (chunks_of entries.new.items)) }
{
    if k >= entries.len() {
        return;
    }
    if size_at(entries, k) > 0 {
        return;
    }
    remove_chunks(entries, k, k + 1);
}

/// Removes `count` lines from `start` on, and the chunks that are left without lines. Nothing is
/// allocated.
pub fn remove(entries: &mut Vec<Entry>, start: usize, count: usize)
    requires summed { AreSummed 0 0 entries.old.items }
    requires within { start + count ≤ length (all_of (chunks_of entries.old.items)) }
    requires few { length (all_of (chunks_of entries.old.items)) < 2 ^ 64 }
    ensures lines { all_of (chunks_of entries.new.items) ≡
        remove_range (all_of (chunks_of entries.old.items)) start (start + count) }
    ensures summed { AreSummed 0 0 entries.new.items }
    ensures filled { AreFilled (chunks_of entries.old.items) → AreFilled (chunks_of entries.new.items) }
{
    let first = remove_lines(entries, start, count);
    drop_empty(entries, first.saturating_add(1));
    drop_empty(entries, first);
    sum_from(entries, first);
}
