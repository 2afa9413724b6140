//! The rows of an automaton's tables, while they are written.
ghost use Rattle.std.specs.Prelude.{◌≡◌, ℕ, ◌+◌, ◌*◌, ◌<◌, ◌≤◌, ◌↔◌, ◌⊎◌, IfOk, IsTrue, length};
ghost use Rattle.std.specs.Int.{bit_at};
ghost use Rattle.re_trees.specs.{Limits.most_positions, Working.Trees.members};
ghost use Rattle.re_auto.specs.Working.Positions.{one_position, again, in_turn};
ghost use Rattle.re_auto.specs.Working.{Tables.most_words, Ranges.Covers, Bits.{Has, row_of}};
ghost use Rattle.re_auto.specs.Working.PartTables.{Wanted, Shows, crossing, AreBlankRows, HasWidth};
ghost use Rattle.re_auto.specs.Working.PartTables.{Adds, HasRows, shown};

use crate::bits;
use crate::build::ends::{Ends, blank_set};
use crate::ranges::{WordRange, range_of};
use re_trees::ByteSet;
use std::alloc::{AllocError, Global};

/// For each position a row of those that can come directly after it, and for each byte a row of the
/// positions that take it. A row has `width` words.
#[derive(Drop)]
pub struct Rows {
    /// The number of words of a row.
    pub width: usize,
    /// The row of each position.
    pub follow: Vec<u64>,
    /// The row of each of the 256 bytes.
    pub takes: Vec<u64>,
}

impl Rows {
    /// Rows without members, for `count` positions.
    pub fn blank(alloc: Global, count: usize) -> Result<Rows, AllocError>
        requires { count ≤ most_positions }
        ensures { IfOk result (AreBlankRows count) }
    {
        let width = (count + 63) / 64;
        let follow = blank_set(alloc, count * width)?;
        let takes = blank_set(alloc, 256 * width)?;
        Ok(Rows {
            width,
            follow,
            takes,
        })
    }

    /// Adds that the second part can follow the first, and returns the ends of both in turn.
    #[inline(never)]
    pub fn in_turn(&mut self, part: Box<Ends>, rest: Box<Ends>) -> Box<Ends>
        requires left { HasWidth self.old.width part.value }
        requires right { HasWidth self.old.width rest.value }
        requires few { self.old.width ≤ most_words }
        requires rows { HasRows (Has part.value.last_inside.items) self.old }
        ensures begins { result.value.begins ≡ part.value.begins }
        ensures shows { Shows (in_turn (shown part.value) (shown rest.value)) self.old.width
            result.value }
        ensures adds { Adds (in_turn (shown part.value) (shown rest.value)) self.old self.new }
    {
        self.cross(&part.last_inside, &rest.first_inside);
        Ends::in_turn(part, rest)
    }

    /// Adds that the part can follow itself.
    #[inline(never)]
    pub fn again(&mut self, part: &Ends)
        requires width { HasWidth self.old.width part.now }
        requires few { self.old.width ≤ most_words }
        requires rows { HasRows (Has part.now.last_inside.items) self.old }
        ensures { Adds (again (shown part.now)) self.old self.new }
    {
        self.cross(&part.last_inside, &part.first_inside);
    }

    /// Adds a position that takes the bytes in the set, or those outside it.
    pub fn take(&mut self, set: &ByteSet, wanted: bool, position: usize)
        requires room { length self.old.takes.items ≡ 256 * self.old.width }
        requires small { position < self.old.width * 64 }
        ensures { Adds (one_position position (Wanted set.now wanted)) self.old self.new }
    {
        let takers = takers_of(set, wanted);
        mark_takers(&mut self.takes, self.width, takers, position);
    }

    // Adds that each position of `first` can come directly after each of `last`.
    fn cross(&mut self, last: &Vec<u64>, first: &Vec<u64>)
        requires same { (length last.now.items ≡ self.old.width) ×
            (length first.now.items ≡ self.old.width) }
        requires few { self.old.width ≤ most_words }
        requires rows { HasRows (Has last.now.items) self.old }
        ensures { Adds (crossing (Has last.now.items) (Has first.now.items)) self.old self.new }
    {
        cross_rows(&mut self.follow, self.width, last, first, range_of(first));
    }
}

// Adds the members of `first`, which are in the words of the range, to the row of each member of
// word `k` of a set.
fn cross_word(
    follow: &mut [u64],
    width: usize,
    k: usize,
    word: u64,
    first: &[u64],
    range: WordRange,
)
    requires same { length first.now ≡ width }
    requires covers { Covers range first.now }
    requires rows { (b : ℕ) → b < 64 → bit_at word b ≡ 1 →
        (k * 64 + b) * width + width ≤ length follow.old }
    requires few { k < most_words }
    ensures len { length follow.new ≡ length follow.old }
    ensures added { (x q : ℕ) → x * width + width ≤ length follow.old →
        Has (row_of follow.new width x) q ↔
        (Has (row_of follow.old width x) q ⊎
        ((b : ℕ) × (b < 64) × (bit_at word b ≡ 1) × ((x ≡ k * 64 + b) × Has first.now q))) }
{
    let mut left = word;
    'bits: while left != 0 {
        let bit = bits::take_lowest(&mut left);
        bits::add_to_row(follow, width, k * 64 + bit, first, range);
    }
}

/// Adds the members of `first`, which are in the words of the range, to the row of each member of
/// `last`.
pub fn cross_rows(follow: &mut [u64], width: usize, last: &[u64], first: &[u64], range: WordRange)
    requires same { length first.now ≡ width }
    requires covers { Covers range first.now }
    requires few { length last.now ≤ most_words }
    requires rows { (p : ℕ) → Has last.now p → p * width + width ≤ length follow.old }
    ensures len { length follow.new ≡ length follow.old }
    ensures added { (x q : ℕ) → x * width + width ≤ length follow.old →
        Has (row_of follow.new width x) q ↔
        (Has (row_of follow.old width x) q ⊎ Has last.now x × Has first.now q) }
{
    'words: for k in 0..last.len() {
        cross_word(follow, width, k, last[k], first, range);
    }
}

// Adds one number to row `r` of a table.
fn insert_in_row(table: &mut [u64], width: usize, r: usize, e: usize)
    requires room { r * width + width ≤ length table.old }
    requires small { e < width * 64 }
    ensures len { length table.new ≡ length table.old }
    ensures added { (x q : ℕ) → x * width + width ≤ length table.old →
        Has (row_of table.new width x) q ↔ (Has (row_of table.old width x) q ⊎ (x ≡ r) × (q ≡ e)) }
{
    bits::insert(&mut table[r * width..r * width + width], e);
}

// Adds a position to the row of each byte of the set.
fn mark_takers(takes: &mut [u64], width: usize, takers: ByteSet, position: usize)
    requires room { length takes.old ≡ 256 * width }
    requires small { position < width * 64 }
    ensures len { length takes.new ≡ length takes.old }
    ensures added { (c q : ℕ) → c < 256 →
        Has (row_of takes.new width c) q ↔
        (Has (row_of takes.old width c) q ⊎ IsTrue (members takers c) × (q ≡ position)) }
{
    for c in takers {
        insert_in_row(takes, width, c as usize, position);
    }
}

// The bytes in the set, or those outside it.
fn takers_of(set: &ByteSet, wanted: bool) -> ByteSet
    ensures { (c : ℕ) → c < 256 → IsTrue (members result c) ↔ Wanted set.now wanted c }
{
    if wanted {
        return *set;
    }
    set.complement()
}
