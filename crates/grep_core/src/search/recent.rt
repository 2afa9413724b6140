//! The last lines of a file that are not shown.
ghost use Rattle.std.specs.Prelude.{◌≡◌, ◌+◌, ◌^◌, ◌<◌, ◌≤◌, min, [], ◌∷◌, length, drop, get_or};
ghost use Rattle.std.specs.Prelude.{IfOk, OnErr};
ghost use Rattle.re_syntax.specs.Lines.{lines_of, terminated};
ghost use Rattle.re_search.specs.Working.Blocks.{IsBlock};
ghost use Rattle.grep_core.specs.Working.{LastLines.with_lines, Progress.last_of};

use grep_io::lines_end;
use re_syntax::split_file;
use std::alloc::{AllocError, Global};
use std::collections::VecDeque;
use std::marker::Model;
use std::mem;

/// The last lines of a file that are not shown, the oldest first; no more than may be shown before
/// the next selected one. Contracts see them as a list beside that limit.
// The lines are the last `held` of the queue. Those before them, and `next`, are memory for later
// lines.
#[derive(Drop)]
pub struct RecentLines {
    alloc: Global,
    limit: u64,
    lines: VecDeque<Vec<u8>>,
    held: usize,
    next: Vec<u8>,
}

impl Model for RecentLines {
    ghost use Rattle.std.specs.Prelude.{◌≤◌, map, length};
    ghost use Rattle.grep_core.specs.Working.Progress.{last_of};
    ghost use Rattle.grep_core.specs.Working.LastLines.{LastLines};

    ghost Value = { LastLines };

    ghost view = { λ a. record {
      limit = a.limit;
      lines = last_of a.held (map (λ line. line.items) a.lines.items);
    } };

    ghost invariant = { λ a. (a.held ≤ length a.lines.items) × (length a.lines.items ≤ a.limit) };
}

// How many lines are held once one more is added.
fn held_with(held: usize, limit: u64) -> usize
    requires few { held ≤ limit }
    requires countable { held + 1 < 2 ^ 64 }
    ensures { result ≡ min (held + 1) limit }
{
    if (held as u64) < limit {
        held + 1
    } else {
        held
    }
}

// Where the last lines of a block begin, at most `most` of them.
fn last_lines(block: &[u8], most: u64) -> usize
    requires { IsBlock block.now }
    ensures within { result ≤ length block.now }
    ensures begin { drop result block.now ≡ terminated (last_of most (lines_of block.now)) }
{
    let mut start = block.len();
    for _ in 0..most {
        if start == 0 {
            return 0;
        }
        start = lines_end(&block[..start - 1]);
    }
    start
}

impl RecentLines {
    /// No line is held; at most `limit` will be. Nothing is reserved for them.
    pub fn new(alloc: Global, limit: u64) -> RecentLines
        ensures { result ≡ record { limit = limit; lines = [] } }
    {
        RecentLines {
            alloc,
            limit,
            lines: VecDeque::new(alloc),
            held: 0,
            next: Vec::new(alloc),
        }
    }

    /// How many lines are held.
    pub fn len(&self) -> usize
        ensures is { result ≡ length self.now.lines }
        ensures few { result ≤ self.now.limit }
    {
        self.held
    }

    /// The line at this place; the oldest is at 0.
    pub fn line(&self, k: usize) -> &[u8]
        requires { k < length self.now.lines }
        ensures { result.now ≡ get_or self.now.lines k [] }
    {
        &self.lines[self.lines.len() - self.held + k]
    }

    /// Forgets all lines. Their memory is kept for later ones.
    pub fn clear(&mut self)
        ensures { self.new ≡ record self.old { lines = [] } }
    {
        self.held = 0;
    }

    /// Adds a line; the oldest is removed if the limit is reached. If no line held before was
    /// shorter, nothing is allocated.
    ///
    /// Returns `AllocError` if an allocation fails. The lines are then as before.
    pub fn push(&mut self, line: &[u8]) -> Result<(), AllocError>
        ensures ok { IfOk result (λ _. self.new ≡ with_lines self.old (line.now ∷ [])) }
        ensures err { OnErr result (self.new ≡ self.old) }
    {
        if self.limit == 0 {
            return Ok(());
        }
        self.next.clear();
        self.next.extend_from_slice(line)?;
        let next = mem::replace(&mut self.next, Vec::new(self.alloc));
        self.lines.push_back(next)?;
        let count = self.lines.len();
        self.held = held_with(self.held, self.limit);
        if count == self.held {
            return Ok(());
        }
        let Some(free) = self.lines.pop_front() else {
            return Ok(());
        };
        self.next = free;
        Ok(())
    }

    /// Adds lines, each with its newline. No more of them are looked at than can be held.
    ///
    /// Returns `AllocError` if an allocation fails. Some of the lines may be held then.
    pub fn push_block(&mut self, block: &[u8]) -> Result<(), AllocError>
        requires { IsBlock block.now }
        ensures { IfOk result (λ _. self.new ≡ with_lines self.old (lines_of block.now)) }
    {
        let start = last_lines(block, self.limit);
        for line in split_file(&block[start..]) {
            self.push(line)?;
        }
        Ok(())
    }
}
