//! For each position of an automaton, the positions that can come directly before it.
ghost use Rattle.std.specs.Prelude.{◌≡◌, ℕ, suc, ◌+◌, ◌*◌, ◌/◌, ◌<◌, ◌≤◌, ◌↔◌, ◌⊎◌, IfOk, IsTrue};
ghost use Rattle.std.specs.{Prelude.{List, length}, Int.bit_at};
ghost use Rattle.re_trees.specs.{Limits.most_positions, Working.Trees.expression_of};
ghost use Rattle.re_trees.specs.{Holds.positions, Expression.Expression};
ghost use Rattle.re_auto.specs.Working.{Ranges.{Covers, CoverRows}, Positions.part_of};
ghost use Rattle.re_auto.specs.Working.{Tables.{words_for, most_words}, Bits.{Has, row_of}};
ghost use Rattle.re_ends.specs.Working.Preceding.{ArePrecedingFor};

use re_auto::{Automaton, WordRange, bits, blank_set, cross_rows, ranges_of};
use std::alloc::{AllocError, Global};

/// For each position of an automaton, the positions that can come directly before it.
#[derive(Drop)]
pub struct Preceding {
    rows: Vec<u64>,
    ranges: Vec<WordRange>,
    // Positions that only the one right before them can come before.
    chained: Vec<u64>,
    width: usize,
}

impl Preceding {
    /// Those of this automaton.
    pub fn of(alloc: Global, automaton: &Automaton) -> Result<Preceding, AllocError>
        requires { positions (expression_of automaton.now) ≤ most_positions }
        ensures { IfOk result (ArePrecedingFor (expression_of automaton.now)) }
    {
        let size = automaton.size();
        let width = automaton.taking(0).len();
        let mut only = blank_set(alloc, width)?;
        let mut rows = blank_set(alloc, size * width)?;
        turn(automaton, &mut only, &mut rows);
        let ranges = ranges_of(alloc, &rows, width, size)?;
        let mut chained = blank_set(alloc, width)?;
        add_chained(&mut chained, &rows, &ranges);
        Ok(Preceding {
            rows,
            ranges,
            chained,
            width,
        })
    }

    /// Adds the positions that can come directly before the members of word `k` of a set to
    /// another, and returns a range of words that covers it, from one that covered it before.
    #[inline(always)]
    pub fn add_to(&self, set: &mut [u64], range: WordRange, k: usize, members: u64) -> WordRange
        requires made { (e : Expression) × ArePrecedingFor e self.now ×
            ((b : ℕ) → b < 64 → bit_at members b ≡ 1 → k * 64 + b < positions e) ×
            (length set.old ≡ words_for (positions e)) }
        requires word { (k < length set.old) × (length set.old ≤ most_words) }
        requires covers { Covers range set.old }
        ensures len { length set.new ≡ length set.old }
        ensures covers { Covers result set.new }
        ensures added { (e : Expression) (p : ℕ) → ArePrecedingFor e self.now →
            Has set.new p ↔ (Has set.old p ⊎
            ((b : ℕ) × (b < 64) × (bit_at members b ≡ 1) × (part_of e 0).follow p (k * 64 + b))) }
    {
        let chained = members & self.chained[k];
        let range = add_before(set, range, k, chained);
        self.add_rows(set, range, k, members & !chained)
    }

    // The same by the rows of the members, one after the other.
    #[inline(always)]
    fn add_rows(&self, set: &mut [u64], range: WordRange, k: usize, members: u64) -> WordRange
        requires made { (e : Expression) × ArePrecedingFor e self.now ×
            ((b : ℕ) → b < 64 → bit_at members b ≡ 1 → k * 64 + b < positions e) ×
            (length set.old ≡ words_for (positions e)) }
        requires word { (k < length set.old) × (length set.old ≤ most_words) }
        requires covers { Covers range set.old }
        ensures len { length set.new ≡ length set.old }
        ensures covers { Covers result set.new }
        ensures added { (e : Expression) (p : ℕ) → ArePrecedingFor e self.now →
            Has set.new p ↔ (Has set.old p ⊎
            ((b : ℕ) × (b < 64) × (bit_at members b ≡ 1) × (part_of e 0).follow p (k * 64 + b))) }
    {
        let mut covering = range;
        let mut left = members;
        'bits: while left != 0 {
            let bit = bits::take_lowest(&mut left);
            covering = self.add_row(set, covering, k * 64 + bit);
        }
        covering
    }

    // The same for position `q`.
    #[inline(always)]
    fn add_row(&self, set: &mut [u64], range: WordRange, q: usize) -> WordRange
        requires made { (e : Expression) × ArePrecedingFor e self.now × (q < positions e) ×
            (length set.old ≡ words_for (positions e)) }
        requires covers { Covers range set.old }
        ensures len { length set.new ≡ length set.old }
        ensures covers { Covers result set.new }
        ensures added { (e : Expression) (p : ℕ) → ArePrecedingFor e self.now →
            Has set.new p ↔ (Has set.old p ⊎ (part_of e 0).follow p q) }
    {
        let row = bits::row(&self.rows, self.width, q);
        let more = self.ranges[q];
        bits::add_within(set, row, more);
        joined(range, more)
    }
}

// Adds the positions right before the members of word `k` of a set to another.
#[inline(always)]
fn add_before(set: &mut [u64], range: WordRange, k: usize, members: u64) -> WordRange
    requires word { (k < length set.old) × (length set.old ≤ most_words) }
    requires covers { Covers range set.old }
    ensures len { length set.new ≡ length set.old }
    ensures covers { Covers result set.new }
    ensures added { (p : ℕ) → Has set.new p ↔ (Has set.old p ⊎
        ((b : ℕ) × (b < 64) × (bit_at members b ≡ 1) × (suc p ≡ k * 64 + b))) }
{
    set[k] |= members / 2;
    let here = with_word(range, k);
    if members % 2 == 0 || k == 0 {
        return here;
    }
    bits::insert(set, k * 64 - 1);
    with_word(here, k - 1)
}

// All words from the first of the range and word `k` to the last.
#[inline(always)]
fn with_word(range: WordRange, k: usize) -> WordRange
    requires { k < most_words }
    ensures { (a c : List ℕ) → Covers range a → (k < length c) → (length c ≡ length a) →
        ((q : ℕ) → Has c q → Has a q ⊎ (q / 64 ≡ k)) → Covers result c }
{
    let first = k as u8;
    let past = first + 1;
    if range.first == range.past {
        return WordRange { first, past };
    }
    WordRange {
        first: range.first.min(first),
        past: range.past.max(past),
    }
}

// All words from the first of both ranges to the last.
#[inline(always)]
fn joined(one: WordRange, other: WordRange) -> WordRange
    ensures { (a b c : List ℕ) → Covers one a → Covers other b → (length c ≡ length a) →
        (length c ≡ length b) → ((q : ℕ) → Has c q → Has a q ⊎ Has b q) → Covers result c }
{
    if one.first == one.past {
        return other;
    }
    if other.first == other.past {
        return one;
    }
    WordRange {
        first: one.first.min(other.first),
        past: one.past.max(other.past),
    }
}

// Adds the positions that only the one right before them can come before, by the rows and ranges of
// all.
fn add_chained(chained: &mut [u64], rows: &[u64], ranges: &[WordRange])
    requires rows { CoverRows ranges.now rows.now (length ranges.now) (length chained.old) }
    requires len { length rows.now ≡ length ranges.now * length chained.old }
    requires room { length ranges.now ≤ length chained.old * 64 }
    requires none { (q : ℕ) → Has chained.old q → ⊥ }
    ensures len { length chained.new ≡ length chained.old }
    ensures right { (q p : ℕ) → Has chained.new q → (q < length ranges.now) ×
        (Has (row_of rows.now (length chained.old) q) p ↔ (suc p ≡ q)) }
{
    let width = chained.len();
    'positions: for q in 1..ranges.len() {
        if is_only(bits::row(rows, width, q), ranges[q], q - 1) {
            bits::insert(chained, q);
        }
    }
}

// Whether the set that the range covers has this number and no other.
fn is_only(set: &[u64], range: WordRange, p: usize) -> bool
    requires { Covers range set.now }
    ensures { IsTrue result → (q : ℕ) → Has set.now q ↔ (q ≡ p) }
{
    let k = p / 64;
    if range.first as usize != k || range.past as usize != k + 1 {
        return false;
    }
    set[k] == 1 << (p % 64)
}

// Gives each position a row of those that can come directly before it. The rows have no members
// yet.
fn turn(automaton: &Automaton, only: &mut [u64], rows: &mut [u64])
    requires few { positions (expression_of automaton.now) ≤ most_positions }
    requires only { length only.old ≡ words_for (positions (expression_of automaton.now)) }
    requires len { length rows.old ≡ positions (expression_of automaton.now) * length only.old }
    requires none { (q : ℕ) → Has rows.old q → ⊥ }
    ensures len { length rows.new ≡ length rows.old }
    ensures turned { (x q : ℕ) → x < positions (expression_of automaton.now) →
        Has (row_of rows.new (length only.old) x) q ↔
        (part_of (expression_of automaton.now) 0).follow q x }
{
    let width = only.len();
    'positions: for p in 0..automaton.size() {
        bits::clear(only);
        bits::insert(only, p);
        let first = (p / 64) as u8;
        let range = WordRange {
            first,
            past: first + 1,
        };
        cross_rows(rows, width, automaton.following(p), only, range);
    }
}
