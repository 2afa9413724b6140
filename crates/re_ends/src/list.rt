//! The ends of groups, the greatest first.
ghost use Rattle.std.specs.Prelude.{◌≡◌, ℕ, ◌+◌, ◌-◌, ◌*◌, ◌^◌, ◌<◌, ◌≤◌, List, [], ◌∷◌, ◌++◌};
ghost use Rattle.std.specs.Prelude.{take, IfOk, drop, length, max, set, slice_index};
ghost use Rattle.std.specs.List.{range_with_len};
ghost use Rattle.re_ends.specs.Working.Groups.{Fits, Grow, Leaves, end_of, numbers_of};

use std::alloc::{AllocError, Global};
use std::marker::Model;

/// Numbers that follow each other.
#[derive(Clone, Copy, Drop)]
pub struct Run {
    /// The first of them.
    pub first: u16,
    /// How many come after it.
    pub more: u16,
}

/// The ends of groups, the greatest first, in a part of a buffer: the greatest ends go and lesser ones
/// come without a move of the others.
#[derive(Drop)]
pub struct EndList {
    buffer: Vec<usize>,
    base: usize,
    count: usize,
}

impl Model for EndList {
    ghost use Rattle.std.specs.Prelude.{◌≡◌, ◌+◌, ◌≤◌, take, drop, length};
    ghost use Rattle.re_ends.specs.Working.Groups.{Ends};

    ghost Value = { Ends };

    ghost view = { λ l. record {
      ends = take l.count (drop l.base l.buffer.items);
      most = length l.buffer.items;
    } };

    ghost invariant = { λ l. l.base + l.count ≤ length l.buffer.items };
}

// How many ends come before those that stay are moved, at least.
const SPACE: usize = 64;

impl EndList {
    /// An empty list, with room for this number of ends and one more.
    pub fn new(alloc: Global, most: usize) -> Result<EndList, AllocError>
        requires { most < 2 ^ 32 }
        ensures most { IfOk result (λ l. most < l.most) }
    {
        let buffer = vec![in alloc; 0; most * 2 + SPACE]?;
        Ok(EndList {
            buffer,
            base: 0,
            count: 0,
        })
    }

    /// Removes all ends.
    pub fn clear(&mut self)
        ensures none { self.new.ends ≡ [] }
        ensures most { self.new.most ≡ self.old.most }
    {
        self.base = 0;
        self.count = 0;
    }

    /// Puts the end at its place, if it is greater than the end there: the one with this number,
    /// counted from 1 on; 0 is none.
    #[inline(always)]
    pub fn put_end(&self, number: u16, ends: &mut [usize], at: usize)
        requires { at < length ends.old }
        ensures { ends.new ≡ set ends.old at
            (max (slice_index ends.old at) (end_of self.now.ends number)) }
    {
        if number == 0 || number as usize > self.count {
            return;
        }
        ends[at] = ends[at].max(self.buffer[self.base + number as usize - 1]);
    }

    /// Puts the place last, and leaves `count` ends from this one on.
    #[inline(always)]
    pub fn cut(&mut self, first: u16, count: u16, place: usize)
        requires room { length self.old.ends < self.old.most }
        requires few { first + count ≤ length self.old.ends + 1 }
        ensures cut { Leaves (range_with_len first count) (self.old.ends ++ place ∷ [])
            self.new.ends }
        ensures most { self.new.most ≡ self.old.most }
    {
        self.put_last(place);
        self.base += first as usize;
        self.count = count as usize;
    }

    // Puts the place last.
    #[inline(always)]
    fn put_last(&mut self, place: usize)
        requires { length self.old.ends < self.old.most }
        ensures last { self.new.ends ≡ self.old.ends ++ place ∷ [] }
        ensures most { self.new.most ≡ self.old.most }
    {
        if self.base + self.count == self.buffer.len() {
            move_back(&mut self.buffer, self.base, self.count);
            self.base = 0;
        }
        self.buffer[self.base + self.count] = place;
        self.count += 1;
    }

    /// Puts the place last, and leaves the ends with the numbers of these runs, so many.
    pub fn pick(&mut self, runs: &[Run], count: u16, place: usize)
        requires fits { Fits (numbers_of runs.now) self.old }
        requires count { count ≡ length (numbers_of runs.now) }
        ensures picked { Leaves (numbers_of runs.now) (self.old.ends ++ place ∷ []) self.new.ends }
        ensures most { self.new.most ≡ self.old.most }
    {
        self.put_last(place);
        let at = join_runs(&mut self.buffer, self.base, runs);
        self.base += at;
        self.count = count as usize;
    }
}

// Moves some elements to the beginning.
#[inline(never)]
fn move_back(buffer: &mut [usize], from: usize, count: usize)
    requires { from + count ≤ length buffer.old }
    ensures len { length buffer.new ≡ length buffer.old }
    ensures moved { take count buffer.new ≡ take count (drop from buffer.old) }
{
    buffer.copy_within(from..from + count, 0);
}

// Of the elements from `base` on, moves those of each run right before those of the run after it.
// Returns the number at which the first are then.
fn join_runs(buffer: &mut [usize], base: usize, runs: &[Run]) -> usize
    requires base { base ≤ length buffer.old }
    requires grow { Grow (numbers_of runs.now) }
    requires within { (k : ℕ) → k < length (numbers_of runs.now) →
        base + slice_index (numbers_of runs.now) k < length buffer.old }
    ensures len { length buffer.new ≡ length buffer.old }
    ensures within { base + result + length (numbers_of runs.now) ≤ length buffer.old }
    ensures joined { (k : ℕ) → k < length (numbers_of runs.now) →
        slice_index buffer.new (base + result + k) ≡
        slice_index buffer.old (base + slice_index (numbers_of runs.now) k) }
{
    let count = runs.len();
    if count == 0 {
        return 0;
    }
    let mut k = count - 1;
    let mut at = runs[k].first as usize;
    'runs: while k > 0 {
        k -= 1;
        let count = runs[k].more as usize + 1;
        at -= count;
        let from = base + runs[k].first as usize;
        buffer.copy_within(from..from + count, base + at);
    }
    at
}
