//! Chunks with the numbers of their lines, summed up.
ghost use Rattle.std.specs.Prelude.{map, ◌<◌, take, [], get_or, ◌≡◌, ◌+◌, ◌∷◌, if◌then◌else◌, ◌++◌};
ghost use Rattle.std.specs.Prelude.{length, not, ◌^◌, ◌≤◌, ℕ};
ghost use Rattle.line_chunks.specs.Working.Chunks.{is_matched, matched_count, no_line, all_of};
ghost use Rattle.line_chunks.specs.Working.Sums.{chunks_of, IsSummedTo, AreSummed};
ghost use Rattle.line_chunks.specs.Working.Places.{IsPlace};

use crate::chunk::Chunk;

/// A chunk, and the numbers of lines and of matched lines of all chunks up to and with it.
#[derive(Drop)]
pub struct Entry {
    pub chunk: Chunk,
    pub end: usize,
    pub hits: usize,
}

/// The number of lines of the chunks before chunk `k`.
pub fn lines_before(entries: &[Entry], k: usize) -> usize
    requires { IsSummedTo entries.now k }
    ensures { result ≡ length (all_of (take k (chunks_of entries.now))) }
{
    if k == 0 {
        return 0;
    }
    entries[k - 1].end
}

/// The number of matched lines of the chunks before chunk `k`.
pub fn matched_before(entries: &[Entry], k: usize) -> usize
    requires { IsSummedTo entries.now k }
    ensures { result ≡ matched_count (all_of (take k (chunks_of entries.now))) }
{
    if k == 0 {
        return 0;
    }
    entries[k - 1].hits
}

/// The chunk in which line `place` is, and its number there.
pub fn find_line(entries: &[Entry], place: usize) -> (usize, usize)
    requires summed { AreSummed 0 0 entries.now }
    requires within { place < length (all_of (chunks_of entries.now)) }
    ensures place { IsPlace (chunks_of entries.now) place result.0 result.1 }
    ensures there { result.0 < length entries.now }
    ensures within { result.1 < length (get_or (chunks_of entries.now) result.0 []) }
{
    let mut low = 0;
    let mut high = entries.len();
    while low + 1 < high {
        let middle = low + (high - low) / 2;
        if lines_before(entries, middle) <= place {
            low = middle;
            continue;
        }
        high = middle;
    }
    (low, place - lines_before(entries, low))
}

/// The first chunk that has line `place`, or after whose lines it comes next.
pub fn find_seam(entries: &[Entry], place: usize) -> (usize, usize)
    requires summed { AreSummed 0 0 entries.now }
    requires within { place ≤ length (all_of (chunks_of entries.now)) }
    ensures place { IsPlace (chunks_of entries.now) place result.0 result.1 }
    ensures there { 0 < length entries.now → result.0 < length entries.now }
    ensures first { place ≡ 0 → result.0 ≡ 0 }
    ensures after { 0 < place → 0 < result.1 }
    ensures inside { 0 < place → result.0 < length entries.now }
{
    if place == 0 {
        return (0, 0);
    }
    let (chunk, offset) = find_line(entries, place - 1);
    (chunk, offset + 1)
}

/// One if something holds, and otherwise none.
fn one_if(holds: bool) -> usize
    ensures one { result ≡ (if holds then 1 else 0) }
    ensures few { result ≤ 1 }
{
    if holds {
        return 1;
    }
    0
}

/// How many of the first `to` lines of a chunk some pattern matches.
fn count_matched(chunk: &Chunk, to: usize) -> usize
    requires { to ≤ length chunk.now }
    ensures { result ≡ matched_count (take to chunk.now) }
{
    let mut count = 0;
    for k in 0..to {
        count += one_if(chunk.is_matched(k));
    }
    count
}

/// How many of the lines before line `place` some pattern matches.
pub fn hits_to(entries: &[Entry], place: usize) -> usize
    requires summed { AreSummed 0 0 entries.now }
    requires within { place ≤ length (all_of (chunks_of entries.now)) }
    ensures { result ≡ matched_count (take place (all_of (chunks_of entries.now))) }
{
    if place == 0 {
        return 0;
    }
    let (chunk, offset) = find_seam(entries, place);
    let entry = &entries[chunk];
    matched_before(entries, chunk) + count_matched(&entry.chunk, offset)
}

/// The first line from line `from` on that some pattern matches (`matched`), or that none does, and
/// the number of all lines if there is none.
pub fn find_next(entries: &[Entry], from: usize, matched: bool) -> usize
    requires summed { AreSummed 0 0 entries.now }
    requires within { from ≤ length (all_of (chunks_of entries.now)) }
    requires few { length (all_of (chunks_of entries.now)) < 2 ^ 64 }
    ensures after { from ≤ result }
    ensures within { result ≤ length (all_of (chunks_of entries.now)) }
    ensures passed { (k : ℕ) → from ≤ k → k < result →
        is_matched (get_or (all_of (chunks_of entries.now)) k no_line) ≡ not matched }
    ensures there { result < length (all_of (chunks_of entries.now)) →
        is_matched (get_or (all_of (chunks_of entries.now)) result no_line) ≡ matched }
{
    let (first, before) = find_seam(entries, from);
    let mut place = from;
    let mut offset = before;
    for k in first..entries.len() {
        let entry = &entries[k];
        let next = entry.chunk.next_line(offset, matched);
        place += next - offset;
        if next < entry.chunk.len() {
            return place;
        }
        offset = 0;
    }
    place
}

/// Renews the sums of an entry, before which there are so many lines and matched lines.
fn set_sums(entry: &mut Entry, lines: usize, hits: usize)
    requires few { lines + length entry.old.chunk < 2 ^ 64 }
    requires fewer { hits ≤ lines }
    ensures { entry.new ≡ record {
      chunk = entry.old.chunk;
      end = lines + length entry.old.chunk;
      hits = hits + matched_count entry.old.chunk;
    } }
{
    entry.end = lines + entry.chunk.len();
    entry.hits = hits + entry.chunk.hits();
}

/// Renews the sums of chunk `k` by those before it.
fn sum_at(entries: &mut Vec<Entry>, k: usize)
    requires there { k < length entries.old.items }
    requires few { length (all_of (chunks_of entries.old.items)) < 2 ^ 64 }
    requires summed { IsSummedTo entries.old.items k }
    ensures chunks { chunks_of entries.new.items ≡ chunks_of entries.old.items }
    ensures summed { IsSummedTo entries.new.items (k + 1) }
{
    let lines = lines_before(entries, k);
    let hits = matched_before(entries, k);
    set_sums(&mut entries[k], lines, hits);
}

/// Renews the sums from chunk `first` on.
pub fn sum_from(entries: &mut Vec<Entry>, first: usize)
    requires summed { IsSummedTo entries.old.items first }
    requires few { length (all_of (chunks_of entries.old.items)) < 2 ^ 64 }
    ensures chunks { chunks_of entries.new.items ≡ chunks_of entries.old.items }
    ensures summed { AreSummed 0 0 entries.new.items }
{
    for k in first..entries.len() {
        sum_at(entries, k);
    }
}
