//! The lines of a file, in chunks.
ghost use Rattle.std.specs.Prelude.{◌≡◌, ℕ, ◌+◌, ◌<◌, ◌≤◌, [], ◌∷◌, ◌++◌, length, map, take, drop};
ghost use Rattle.std.specs.{Prelude.{get_or, not, IfOk, OnErr, IfErr}, List.splice};
ghost use Rattle.std.specs.Vec.Iter.{into_iter_items};
ghost use Rattle.re_trees.specs.Lines.{HasNoNewline};
ghost use Rattle.line_chunks.specs.Working.Chunks.{matched_count, line_text, with_line, new_line};
ghost use Rattle.line_chunks.specs.Working.Chunks.{with_columns, FitColumns, MakesFull, all_of};
ghost use Rattle.line_chunks.specs.Working.Chunks.{no_line, is_matched, line_without};

use crate::chunk::Chunk;
use crate::chunks::{add_line, insert, remove};
use crate::columns::{drop_in_all, put_all};
use crate::entries::{
    Entry, find_line, find_next, hits_to, lines_before, matched_before, sum_from,
};
use crate::new_chunks::Filling;
use line_finds::Found;
use re_trees::Span;
use std::alloc::{AllocError, Global};
use std::marker::Model;
use std::vec::IntoIter;

/// The lines of a file with what is found in each, in chunks. A chunk to which lines are added has at
/// most `LIMIT` bytes. Contracts see the list of the chunks.
#[derive(Drop)]
pub struct KeptLines<const LIMIT: u32> {
    entries: Vec<Entry>,
}

impl<const LIMIT: u32> Model for KeptLines<LIMIT> {
    ghost use Rattle.std.specs.Prelude.{List};
    ghost use Rattle.line_chunks.specs.Working.Chunks.{AreFilled, KeptLine};

    ghost Value = { List (List KeptLine) };

    ghost use Rattle.line_chunks.specs.Working.Sums.{chunks_of, AreSummed};

    ghost view = { λ lines. chunks_of lines.entries.items };

    // each entry says how many lines, and how many matched lines, there are up to its chunk's end;
    // each chunk has a line
    ghost invariant = { λ lines.
        AreSummed 0 0 lines.entries.items × AreFilled (chunks_of lines.entries.items) };
}

impl<const LIMIT: u32> KeptLines<LIMIT> {
    /// No lines.
    pub fn new(alloc: Global) -> KeptLines<LIMIT>
        ensures { result ≡ [] }
    {
        KeptLines {
            entries: Vec::new(alloc),
        }
    }

    /// The number of lines.
    pub fn len(&self) -> usize
        ensures { result ≡ length (all_of self.now) }
    {
        let count = self.entries.len();
        lines_before(&self.entries, count)
    }

    /// How many lines some pattern matches.
    pub fn hits(&self) -> usize
        ensures { result ≡ matched_count (all_of self.now) }
    {
        let count = self.entries.len();
        matched_before(&self.entries, count)
    }

    /// How many of the lines before line `place` some pattern matches.
    pub fn hits_before(&self, place: usize) -> usize
        requires { place ≤ length (all_of self.now) }
        ensures { result ≡ matched_count (take place (all_of self.now)) }
    {
        hits_to(&self.entries, place)
    }

    /// The number of chunks.
    pub fn chunk_count(&self) -> usize
        ensures { result ≡ length self.now }
    {
        self.entries.len()
    }

    /// Chunk `i`.
    pub fn chunk(&self, i: usize) -> &Chunk
        requires { i < length self.now }
        ensures { result.now ≡ get_or self.now i [] }
    {
        let entry = &self.entries[i];
        &entry.chunk
    }

    /// Line `place`, without its newline.
    pub fn line(&self, place: usize) -> &[u8]
        requires { place < length (all_of self.now) }
        ensures line { result.now ≡ line_text (get_or (all_of self.now) place no_line) }
        ensures free { HasNoNewline result.now }
    {
        let (at, offset) = find_line(&self.entries, place);
        let entry = &self.entries[at];
        entry.chunk.line(offset)
    }

    /// Whether some pattern matches line `place`.
    pub fn is_matched(&self, place: usize) -> bool
        requires { place < length (all_of self.now) }
        ensures { result ≡ is_matched (get_or (all_of self.now) place no_line) }
    {
        let (at, offset) = find_line(&self.entries, place);
        let entry = &self.entries[at];
        entry.chunk.is_matched(offset)
    }

    /// The kept parts of line `place`.
    pub fn spans(&self, place: usize) -> &[Span]
        requires { place < length (all_of self.now) }
        ensures { result.now ≡ (get_or (all_of self.now) place no_line).found.spans }
    {
        let (at, offset) = find_line(&self.entries, place);
        let entry = &self.entries[at];
        entry.chunk.spans(offset)
    }

    /// The first line from line `from` on that some pattern matches (`matched`), or that none does,
    /// and the number of all lines if there is none. A chunk that has no such line is passed by its
    /// count.
    pub fn next_line(&self, from: usize, matched: bool) -> usize
        requires { from ≤ length (all_of self.now) }
        ensures after { from ≤ result }
        ensures within { result ≤ length (all_of self.now) }
        ensures passed { (k : ℕ) → from ≤ k → k < result →
            is_matched (get_or (all_of self.now) k no_line) ≡ not matched }
        ensures there { result < length (all_of self.now) →
            is_matched (get_or (all_of self.now) result no_line) ≡ matched }
    {
        // for the proof alone: `find_next` requires fewer than 2^64 lines
        let _lines = self.len();
        find_next(&self.entries, from, matched)
    }

    /// Adds a line in which nothing is found: to the last chunk if this has at most `LIMIT` bytes
    /// then, and otherwise as a chunk of its own.
    pub fn push(&mut self, alloc: Global, line: &[u8]) -> Result<(), AllocError>
        requires { HasNoNewline line.now }
        ensures ok { IfOk result (λ _. all_of self.new ≡ all_of self.old ++ new_line line.now ∷ []) }
        ensures chunks { IfOk result (λ _. self.new ≡ with_line LIMIT self.old (new_line line.now)) }
        ensures err { OnErr result (self.new ≡ self.old) }
    {
        add_line(alloc, &mut self.entries, LIMIT as usize, line)
    }

    /// Puts other lines in the place of `count` lines from `start` on. If there is no memory for
    /// them all lines stay as they are; without new lines nothing is allocated.
    pub fn splice(
        &mut self,
        alloc: Global,
        start: usize,
        count: usize,
        new: &KeptLines<LIMIT>,
    ) -> Result<(), AllocError>
        requires { start + count ≤ length (all_of self.old) }
        ensures ok { IfOk result (λ _. all_of self.new ≡
            splice (all_of self.old) start (start + count) (all_of new.now)) }
        ensures err { OnErr result (self.new ≡ self.old) }
        ensures memory { all_of new.now ≡ [] → IfErr result (λ _. ⊥) }
        ensures made { IfOk result (λ _. 0 < length (all_of new.now) →
            MakesFull LIMIT self.old self.new) }
    {
        let left = self.len() - count;
        if new.len() == 0 {
            remove(&mut self.entries, start, count);
            return Ok(());
        }
        if left.checked_add(new.len()).is_none() {
            return Err(AllocError);
        }
        let filling = Filling {
            alloc,
            limit: LIMIT as usize,
        };
        insert(filling, &mut self.entries, start, count, &new.entries)
    }

    /// Replaces what is found in the lines of each chunk with the next of these; where that is
    /// `None` it stays. Nothing is allocated.
    pub fn put_columns(&mut self, found: &mut IntoIter<Option<Found>>)
        requires { FitColumns self.old (into_iter_items found.old) }
        ensures lines { self.new ≡ with_columns self.old (into_iter_items found.old) }
        ensures rest { into_iter_items found.new ≡ drop (length self.old) (into_iter_items found.old) }
    {
        // for the proof alone: `sum_from` requires fewer than 2^64 lines
        let _lines = self.len();
        put_all(&mut self.entries, found);
        sum_from(&mut self.entries, 0);
    }

    /// Removes pattern `p` from what is found; later patterns move up. Nothing is allocated.
    pub fn drop_number(&mut self, p: usize)
        ensures { self.new ≡ map (map (line_without p)) self.old }
    {
        // for the proof alone: `sum_from` requires fewer than 2^64 lines
        let _lines = self.len();
        drop_in_all(&mut self.entries, p);
        sum_from(&mut self.entries, 0);
    }
}
