//! Some lines with what is found in each.
ghost use Rattle.std.specs.Prelude.{◌≡◌, ℕ, ◌^◌, ◌<◌, ◌≤◌, [], ◌∷◌, ◌++◌, length, map, take, drop};
ghost use Rattle.std.specs.Prelude.{get_or, IfOk, OnErr, IsTrue, not, slice_range};
ghost use Rattle.std.specs.List.{remove_range};
ghost use Rattle.re_trees.specs.Lines.{HasNoNewline, lines_of, terminated};
ghost use Rattle.{re_runs.specs.Working.Blocks.IsBlock, line_finds.specs.Working.Finds.numbers_at};
ghost use Rattle.line_finds.specs.Working.Finds.{AreBelow};
ghost use Rattle.line_chunks.specs.Working.Chunks.{no_line, new_line, line_text, is_matched};
ghost use Rattle.line_chunks.specs.Working.Chunks.{matched_count, seen, line_without};

use line_finds::{Found, Matches, Pieces};
use re_trees::Span;
use std::alloc::{AllocError, Global};
use std::marker::Model;

/// Some lines of a file, and what is found in each.
#[derive(Drop)]
pub struct Chunk {
    /// Each line with its newline.
    lines: Pieces<u8>,
    found: Found,
}

impl Model for Chunk {
    ghost use Rattle.std.specs.Prelude.{◌≡◌, List, All, length, map};
    ghost use Rattle.line_chunks.specs.Working.Chunks.{KeptLine, seen};
    ghost use Rattle.line_chunks.specs.Working.Ended.{bare, IsEnded};

    ghost Value = { List KeptLine };

    ghost view = { λ chunk. seen (map bare chunk.lines) chunk.found };

    ghost invariant = { λ chunk. All IsEnded chunk.lines × (chunk.found.size ≡ length chunk.lines) };
}

impl Chunk {
    /// No lines, with room for so many bytes.
    pub(crate) fn with_room(alloc: Global, bytes: usize) -> Result<Chunk, AllocError>
        ensures { IfOk result (λ chunk. chunk ≡ []) }
    {
        let lines = Pieces::with_room(alloc, bytes)?;
        Ok(Chunk {
            lines,
            found: Found::new(alloc),
        })
    }

    /// The number of lines.
    pub fn len(&self) -> usize
        ensures { result ≡ length self.now }
    {
        self.lines.len()
    }

    /// The number of bytes of the lines and their newlines.
    pub fn size(&self) -> usize
        ensures { result ≡ length (terminated (map line_text self.now)) }
    {
        self.lines.all().len()
    }

    /// How many lines some pattern matches.
    pub fn hits(&self) -> usize
        ensures { result ≡ matched_count self.now }
    {
        self.found.hits()
    }

    /// Line `k`, without its newline.
    pub fn line(&self, k: usize) -> &[u8]
        requires { k < length self.now }
        ensures line { result.now ≡ line_text (get_or self.now k no_line) }
        ensures free { HasNoNewline result.now }
    {
        let line = self.lines.at(k);
        &line[..line.len() - 1]
    }

    /// The lines from line `k` on, one after the other, each ended by a newline.
    pub fn text_from(&self, k: usize) -> &[u8]
        requires { k ≤ length self.now }
        ensures block { IsBlock result.now }
        ensures lines { lines_of result.now ≡ drop k (map line_text self.now) }
    {
        let start = self.lines.start(k);
        &self.lines.all()[start..]
    }

    /// Where line `k` begins in the text of all lines, or where the last one's newline has ended.
    pub fn start(&self, k: usize) -> usize
        requires { k ≤ length self.now }
        ensures start { result ≡ length (terminated (take k (map line_text self.now))) }
        ensures fits { length (terminated (map line_text self.now)) < 2 ^ 64 }
    {
        self.lines.start(k)
    }

    /// The number of the line that begins at byte `place` of the text of all lines, from line
    /// `from` on.
    pub fn number_at(&self, from: usize, place: usize) -> usize
        requires { from ≤ length self.now }
        ensures within { result ≤ length self.now }
        ensures at { (k : ℕ) → from ≤ k → k ≤ length self.now →
            place ≡ length (terminated (take k (map line_text self.now))) → result ≡ k }
    {
        let mut number = from;
        while number < self.len() {
            if place <= self.lines.start(number) {
                return number;
            }
            number += 1;
        }
        number
    }

    /// Whether some pattern matches line `k`.
    pub fn is_matched(&self, k: usize) -> bool
        requires { k < length self.now }
        ensures { result ≡ is_matched (get_or self.now k no_line) }
    {
        self.found.is_matched(k)
    }

    /// Whether no line is one that some pattern matches (`matched`), or one that none does.
    fn has_none(&self, matched: bool) -> bool
        ensures { IsTrue result → ((k : ℕ) → k < length self.now →
            is_matched (get_or self.now k no_line) ≡ not matched) }
    {
        if matched {
            return self.hits() == 0;
        }
        self.hits() == self.len()
    }

    /// The first line from line `from` on that some pattern matches (`matched`), or that none does,
    /// and the number of lines if there is none.
    pub fn next_line(&self, from: usize, matched: bool) -> usize
        requires { from ≤ length self.now }
        ensures after { from ≤ result }
        ensures within { result ≤ length self.now }
        ensures passed { (k : ℕ) → from ≤ k → k < result →
            is_matched (get_or self.now k no_line) ≡ not matched }
        ensures there { result < length self.now →
            is_matched (get_or self.now result no_line) ≡ matched }
    {
        let count = self.len();
        if self.has_none(matched) {
            return count;
        }
        for k in from..count {
            if self.is_matched(k) == matched {
                return k;
            }
        }
        count
    }

    /// The kept parts of line `k`.
    pub fn spans(&self, k: usize) -> &[Span]
        requires { k < length self.now }
        ensures { result.now ≡ (get_or self.now k no_line).found.spans }
    {
        self.found.spans(k)
    }

    /// Which patterns match which lines.
    pub fn matches(&self) -> &Matches
        ensures at { (k : ℕ) → k < length self.now →
            numbers_at k result.now ≡ (get_or self.now k no_line).found.numbers }
        ensures within { AreBelow (length self.now) result.now }
    {
        self.found.matches()
    }

    /// Replaces what is found in the lines.
    pub fn set_found(&mut self, found: Found)
        requires { found.size ≡ length self.old }
        ensures { self.new ≡ seen (map line_text self.old) found }
    {
        self.found = found;
    }

    /// Removes pattern `p`; later patterns move up. Nothing is allocated.
    pub fn drop_number(&mut self, p: usize)
        ensures { self.new ≡ map (line_without p) self.old }
    {
        self.found.drop_number(p);
    }

    /// Adds a line in which nothing is found.
    pub fn push(&mut self, line: &[u8]) -> Result<(), AllocError>
        requires { HasNoNewline line.now }
        ensures ok { IfOk result (λ _. self.new ≡ self.old ++ new_line line.now ∷ []) }
        ensures err { OnErr result (self.new ≡ self.old) }
    {
        let before = self.lines.len();
        self.lines.push(line, b'\n')?;
        if let Err(fault) = self.found.push_none() {
            self.lines.remove(before, self.lines.len());
            return Err(fault);
        }
        Ok(())
    }

    /// Adds the lines of another chunk from `from` up to `to`, with what is found in them. After a
    /// refusal all is as it was.
    pub fn add_part(&mut self, other: &Chunk, from: usize, to: usize) -> Result<(), AllocError>
        requires in_order { from ≤ to }
        requires within { to ≤ length other.now }
        ensures ok { IfOk result (λ _. self.new ≡ self.old ++ slice_range other.now from to) }
        ensures err { OnErr result (self.new ≡ self.old) }
    {
        let before = self.lines.len();
        self.lines.add_part(&other.lines, from, to)?;
        if let Err(fault) = self.found.add_part(&other.found, from, to) {
            self.lines.remove(before, self.lines.len());
            return Err(fault);
        }
        Ok(())
    }

    /// Removes the lines from `from` up to `to`. Nothing is allocated.
    pub fn remove(&mut self, from: usize, to: usize)
        requires in_order { from ≤ to }
        requires within { to ≤ length self.old }
        ensures { self.new ≡ remove_range self.old from to }
    {
        self.lines.remove(from, to);
        self.found.remove(from, to);
    }
}
