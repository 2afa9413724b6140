//! What is found in the lines of a chunk.
ghost use Rattle.std.specs.Prelude.{◌≡◌, ℕ, ◌+◌, ◌-◌, ◌^◌, ◌<◌, ◌≤◌, [], ◌∷◌, ◌++◌, false, length};
ghost use Rattle.std.specs.Prelude.{replicate, get_or, IfOk, OnErr};
ghost use Rattle.line_finds.specs.Working.Finds.{no_finds, finds_at, is_paired, AreBelow};
ghost use Rattle.line_finds.specs.Working.Finds.{paired_before, without, numbers_at};
ghost use Rattle.line_finds.specs.Working.Marked.{AreMarks, set_before, AreAdded};

use crate::matches::Matches;
use crate::pieces::SpanLists;
use re_trees::Span;
use std::alloc::{AllocError, Global};
use std::marker::Model;

/// What is found in the lines of a chunk: which patterns match each, and its parts.
#[derive(Drop)]
pub struct Found {
    matches: Matches,
    /// Of each line, whether some pattern matches it.
    marks: Vec<bool>,
    /// The number of these lines.
    hits: usize,
    parts: SpanLists,
}

impl Model for Found {
    ghost use Rattle.line_finds.specs.Working.Finds.{FoundIn};
    ghost use Rattle.line_finds.specs.Working.Marked.{found_in, IsFound};

    ghost Value = { FoundIn };

    ghost view = { found_in };

    ghost invariant = { IsFound };
}

impl Found {
    /// What is found in no lines.
    pub fn new(alloc: Global) -> Found
        ensures { result ≡ record { size = 0; pairs = []; parts = [] } }
    {
        Found {
            matches: Matches::new(alloc),
            marks: Vec::new(alloc),
            hits: 0,
            parts: SpanLists::new(alloc),
        }
    }

    /// What is found in `size` lines that these patterns match and that have these parts.
    pub fn of(
        alloc: Global,
        size: usize,
        matches: Matches,
        parts: SpanLists,
    ) -> Result<Found, AllocError>
        requires within { AreBelow size matches }
        requires few { length parts ≤ size }
        ensures { IfOk result (λ found. found ≡ record { size = size; pairs = matches; parts = parts }) }
    {
        let marks = matches.marks(alloc, size)?;
        let hits = count_set(&marks);
        Ok(Found {
            matches,
            marks,
            hits,
            parts,
        })
    }

    /// Whether some pattern matches line `k`.
    pub fn is_matched(&self, k: usize) -> bool
        requires { k < self.now.size }
        ensures { result ≡ is_paired k self.now.pairs }
    {
        self.marks[k]
    }

    /// How many lines some pattern matches.
    pub fn hits(&self) -> usize
        ensures { result ≡ paired_before self.now.size self.now.pairs }
    {
        self.hits
    }

    /// The parts of line `k`.
    pub fn spans(&self, k: usize) -> &[Span]
        ensures { result.now ≡ get_or self.now.parts k [] }
    {
        self.parts.at(k)
    }

    /// Which patterns match which lines.
    pub fn matches(&self) -> &Matches
        ensures same { result.now ≡ self.now.pairs }
        ensures within { AreBelow self.now.size result.now }
    {
        &self.matches
    }

    /// Adds a line in which nothing is found.
    pub fn push_none(&mut self) -> Result<(), AllocError>
        ensures size { IfOk result (λ _. self.new.size ≡ self.old.size + 1) }
        ensures old { IfOk result (λ _. (k : ℕ) → k < self.old.size → finds_at self.new k ≡ finds_at self.old k) }
        ensures new { IfOk result (λ _. finds_at self.new self.old.size ≡ no_finds) }
        ensures err { OnErr result (self.new ≡ self.old) }
    {
        add_mark(&mut self.marks)?;
        Ok(())
    }

    /// Removes pattern `p`; later patterns move up. Nothing is allocated.
    pub fn drop_number(&mut self, p: usize)
        ensures size { self.new.size ≡ self.old.size }
        ensures finds { (k : ℕ) → finds_at self.new k ≡
            record { numbers = without p (numbers_at k self.old.pairs); spans = get_or self.old.parts k [] } }
    {
        self.matches.drop_numbers(p, 1, 1);
        self.hits = renew(&self.matches, &mut self.marks);
    }

    /// Adds what is found in another chunk's lines from `from` up to `to`. After a refusal as
    /// much is found as before.
    pub fn add_part(&mut self, other: &Found, from: usize, to: usize) -> Result<(), AllocError>
        requires in_order { from ≤ to }
        requires within { to ≤ other.now.size }
        ensures size { IfOk result (λ _. self.new.size ≡ self.old.size + (to - from)) }
        ensures old { (k : ℕ) → k < self.old.size → finds_at self.new k ≡ finds_at self.old k }
        ensures new { IfOk result (λ _. (k : ℕ) → k < to - from →
            finds_at self.new (self.old.size + k) ≡ finds_at other.now (from + k)) }
        ensures err { OnErr result (self.new.size ≡ self.old.size) }
    {
        let size = self.marks.len();
        let Some(end) = size.checked_add(to - from) else {
            return Err(AllocError);
        };
        add_marks(&mut self.marks, end)?;
        if let Err(fault) = add_all(&mut self.matches, &mut self.parts, size, other, from, to) {
            self.marks.truncate(size);
            return Err(fault);
        }
        self.hits = renew(&self.matches, &mut self.marks);
        Ok(())
    }

    /// Removes the lines from `from` up to `to`; later lines move up. Nothing is allocated.
    pub fn remove(&mut self, from: usize, to: usize)
        requires in_order { from ≤ to }
        requires within { to ≤ self.old.size }
        ensures size { self.new.size ≡ self.old.size - (to - from) }
        ensures before { (k : ℕ) → k < from → finds_at self.new k ≡ finds_at self.old k }
        ensures after { (k : ℕ) → finds_at self.new (from + k) ≡ finds_at self.old (to + k) }
    {
        let left = self.marks.len() - (to - from);
        self.matches.remove_lines(from, to);
        self.parts.remove(from, to);
        self.marks.truncate(left);
        self.hits = renew(&self.matches, &mut self.marks);
    }
}

/// How many of the marks are set.
fn count_set(marks: &[bool]) -> usize
    ensures { result ≡ set_before (length marks.now) marks.now }
{
    let mut count = 0;
    for k in 0..marks.len() {
        if marks[k] {
            count += 1;
        }
    }
    count
}

/// Sets the marks of these lines anew. The result is the number of those that some pattern matches.
fn renew(matches: &Matches, marks: &mut Vec<bool>) -> usize
    requires { AreBelow (length marks.old.items) matches.now }
    ensures size { length marks.new.items ≡ length marks.old.items }
    ensures marks { AreMarks matches.now marks.new.items }
    ensures hits { result ≡ paired_before (length marks.new.items) matches.now }
{
    matches.renew_marks(marks);
    count_set(marks)
}

/// Adds a mark that is not set.
fn add_mark(marks: &mut Vec<bool>) -> Result<(), AllocError>
    ensures ok { IfOk result (λ _. marks.new.items ≡ marks.old.items ++ false ∷ []) }
    ensures err { OnErr result (marks.new.items ≡ marks.old.items) }
{
    marks.push(false)?;
    Ok(())
}

/// Adds marks that are not set until there are `size`.
fn add_marks(marks: &mut Vec<bool>, size: usize) -> Result<(), AllocError>
    requires { length marks.old.items ≤ size }
    ensures ok { IfOk result (λ _. marks.new.items ≡
        marks.old.items ++ replicate (size - length marks.old.items) false) }
    ensures err { OnErr result (marks.new.items ≡ marks.old.items) }
{
    marks.resize(size, false)
}

/// Adds the parts of lines from `from` up to `to` after those of `at` lines. After a refusal some
/// may have been added.
fn add_lists(
    parts: &mut SpanLists,
    at: usize,
    other: &Found,
    from: usize,
    to: usize,
) -> Result<(), AllocError>
    requires few { length parts.old ≤ at }
    requires in_order { from ≤ to }
    requires room { at + (to - from) < 2 ^ 64 }
    ensures ok { IfOk result (λ _. AreAdded at from (to - from) parts.old other.now.parts parts.new) }
    ensures err { OnErr result ((k : ℕ) → k < at → get_or parts.new k [] ≡ get_or parts.old k []) }
    ensures few { OnErr result (length parts.new ≤ at + (to - from)) }
{
    for k in 0..to - from {
        parts.put(at + k, other.spans(from + k))?;
    }
    Ok(())
}

/// Adds the patterns and the parts of lines from `from` up to `to` after those of `at` lines. After
/// a refusal as much is found as before.
fn add_all(
    matches: &mut Matches,
    parts: &mut SpanLists,
    at: usize,
    other: &Found,
    from: usize,
    to: usize,
) -> Result<(), AllocError>
    requires before { AreBelow at matches.old }
    requires few { length parts.old ≤ at }
    requires in_order { from ≤ to }
    requires room { at + (to - from) < 2 ^ 64 }
    ensures old { IfOk result (λ _. (k : ℕ) → k < at →
        numbers_at k matches.new ≡ numbers_at k matches.old) }
    ensures new { IfOk result (λ _. (k : ℕ) → k < to - from →
        numbers_at (at + k) matches.new ≡ numbers_at (from + k) other.now.pairs) }
    ensures within { IfOk result (λ _. AreBelow (at + (to - from)) matches.new) }
    ensures parts { IfOk result (λ _. AreAdded at from (to - from) parts.old other.now.parts parts.new) }
    ensures matches { OnErr result (matches.new ≡ matches.old) }
    ensures same { OnErr result (AreAdded at from 0 parts.old other.now.parts parts.new) }
{
    if let Err(fault) = add_lists(parts, at, other, from, to) {
        parts.remove(at, at + (to - from));
        return Err(fault);
    }
    if let Err(fault) = matches.add_part(at, other.matches(), from, to) {
        parts.remove(at, at + (to - from));
        return Err(fault);
    }
    Ok(())
}
