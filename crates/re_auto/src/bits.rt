//! Sets of numbers, as words of 64 bits.
ghost use Rattle.std.specs.Prelude.{IsTrue, ◌≡◌, ◌^◌, ℕ, ◌≤◌, ◌+◌, ◌<◌, ◌↔◌, ◌⊎◌, length, ◌*◌};
ghost use Rattle.std.specs.Int.{bit_at};
ghost use Rattle.re_auto.specs.Working.{Tables.most_words, Bits.{InWord, row_of, Has}};
ghost use Rattle.re_auto.specs.Working.Ranges.{CoverRows, Covers};

use crate::ranges::WordRange;

/// Adds the members of `row`.
#[inline(always)]
pub fn add(into: &mut [u64], row: &[u64])
    requires same { length into.old ≡ length row.now }
    ensures len { length into.new ≡ length into.old }
    ensures added { (e : ℕ) → Has into.new e ↔ (Has into.old e ⊎ Has row.now e) }
{
    'words: for k in 0..into.len() {
        into[k] |= row[k];
    }
}

/// Adds the members of `row`, which are all in the words of the range.
#[inline(always)]
pub fn add_within(into: &mut [u64], row: &[u64], range: WordRange)
    requires same { length into.old ≡ length row.now }
    requires covers { Covers range row.now }
    ensures len { length into.new ≡ length into.old }
    ensures added { (e : ℕ) → Has into.new e ↔ (Has into.old e ⊎ Has row.now e) }
{
    let first = range.first as usize;
    if first + 1 == range.past as usize {
        into[first] |= row[first];
        return;
    }
    'words: for k in first..range.past as usize {
        into[k] |= row[k];
    }
}

/// Keeps the members that `row` has too.
#[inline(always)]
pub fn keep(into: &mut [u64], row: &[u64])
    requires same { length into.old ≡ length row.now }
    ensures len { length into.new ≡ length into.old }
    ensures kept { (e : ℕ) → Has into.new e ↔ (Has into.old e × Has row.now e) }
{
    'words: for k in 0..into.len() {
        into[k] &= row[k];
    }
}

/// Adds one number.
pub fn insert(into: &mut [u64], e: usize)
    requires room { e < length into.old * 64 }
    ensures len { length into.new ≡ length into.old }
    ensures inserted { (q : ℕ) → Has into.new q ↔ (Has into.old q ⊎ (q ≡ e)) }
{
    into[e / 64] |= 1u64 << (e % 64);
}

/// Whether the set has the number.
#[inline(always)]
pub fn has(words: &[u64], e: usize) -> bool
    requires room { e < length words.now * 64 }
    ensures { IsTrue result ↔ Has words.now e }
{
    (words[e / 64] >> (e % 64)) & 1 == 1
}

/// Whether the two sets have a member in common.
#[inline(always)]
pub fn meets(a: &[u64], b: &[u64]) -> bool
    requires same { length a.now ≡ length b.now }
    ensures { IsTrue result ↔ ((e : ℕ) × Has a.now e × Has b.now e) }
{
    'words: for k in 0..a.len() {
        if a[k] & b[k] != 0 {
            return true;
        }
    }
    false
}

/// Whether the set is empty.
#[inline(always)]
pub fn is_clear(words: &[u64]) -> bool
    ensures { IsTrue result ↔ ((e : ℕ) → Has words.now e → ⊥) }
{
    words.iter().all(|word| *word == 0)
}

/// Takes the lowest number out of a set that is one word and is not empty.
#[inline(always)]
pub fn take_lowest(left: &mut u64) -> usize
    requires { 0 < left.old }
    ensures small { result < 64 }
    ensures held { InWord left.old result }
    ensures less { left.new < left.old }
    ensures gone { InWord left.new result → ⊥ }
    ensures rest { (b : ℕ) → b < 64 → InWord left.old b ↔ (InWord left.new b ⊎ (b ≡ result)) }
{
    let lowest = left.trailing_zeros() as usize;
    *left &= !(1u64 << lowest);
    lowest
}

/// Row `r` of a table whose rows have `width` words.
#[inline(always)]
pub fn row(table: &[u64], width: usize, r: usize) -> &[u64]
    requires { r * width + width ≤ length table.now }
    ensures is { result.now ≡ row_of table.now width r }
    ensures len { length result.now ≡ width }
{
    &table[r * width..r * width + width]
}

/// Adds the rows of the members of word `k` of a set.
#[inline(always)]
fn add_rows_of_word(into: &mut [u64], table: &[u64], ranges: &[WordRange], k: usize, word: u64)
    requires few { k < most_words }
    requires rows { (b : ℕ) → b < 64 → bit_at word b ≡ 1 →
        (k * 64 + b) * length into.old + length into.old ≤ length table.now }
    requires named { (b : ℕ) → b < 64 → bit_at word b ≡ 1 → k * 64 + b < length ranges.now }
    requires covered { CoverRows ranges.now table.now (length ranges.now) (length into.old) }
    ensures len { length into.new ≡ length into.old }
    ensures added { (q : ℕ) →
        Has into.new q ↔
        (Has into.old q ⊎
        ((b : ℕ) × (b < 64) × (bit_at word b ≡ 1) ×
        Has (row_of table.now (length into.old) (k * 64 + b)) q)) }
{
    let width = into.len();
    let mut left = word;
    'bits: while left != 0 {
        let bit = take_lowest(&mut left);
        let p = k * 64 + bit;
        add_within(into, row(table, width, p), ranges[p]);
    }
}

/// Adds the rows of the members of `from`, each only in the words of its range.
#[inline(always)]
pub fn add_rows(into: &mut [u64], table: &[u64], ranges: &[WordRange], from: &[u64])
    requires few { length from.now ≤ most_words }
    requires rows { (p : ℕ) → Has from.now p →
        p * length into.old + length into.old ≤ length table.now }
    requires named { (p : ℕ) → Has from.now p → p < length ranges.now }
    requires covered { CoverRows ranges.now table.now (length ranges.now) (length into.old) }
    ensures len { length into.new ≡ length into.old }
    ensures added { (q : ℕ) →
        Has into.new q ↔
        (Has into.old q ⊎
        ((p : ℕ) × Has from.now p × Has (row_of table.now (length into.old) p) q)) }
{
    'words: for k in 0..from.len() {
        add_rows_of_word(into, table, ranges, k, from[k]);
    }
}

/// Makes `into` equal to `from`.
#[inline(always)]
pub fn copy(into: &mut [u64], from: &[u64])
    requires same { length into.old ≡ length from.now }
    ensures { into.new ≡ from.now }
{
    into.copy_from_slice(from);
}

/// Removes all members.
#[inline(always)]
pub fn clear(into: &mut [u64])
    ensures len { length into.new ≡ length into.old }
    ensures none { (e : ℕ) → Has into.new e → ⊥ }
{
    into.fill(0);
}

/// The word of a set that is one word.
#[inline(always)]
pub fn only_word(words: &[u64]) -> u64
    requires { length words.now ≡ 1 }
    ensures { (e : ℕ) → InWord result e ↔ Has words.now e }
{
    words[0]
}

/// Makes the set, which is one word, this word.
#[inline(always)]
pub fn put_word(into: &mut [u64], word: u64)
    requires { length into.old ≡ 1 }
    ensures len { length into.new ≡ length into.old }
    ensures put { (e : ℕ) → Has into.new e ↔ InWord word e }
{
    into[0] = word;
}

/// Adds the members of `row`, which are all in the words of the range, to row `r` of a table.
pub fn add_to_row(table: &mut [u64], width: usize, r: usize, row: &[u64], range: WordRange)
    requires covers { Covers range row.now }
    requires room { r * width + width ≤ length table.old }
    requires same { length row.now ≡ width }
    ensures len { length table.new ≡ length table.old }
    ensures added { (p q : ℕ) → p * width + width ≤ length table.old →
        Has (row_of table.new width p) q ↔
        (Has (row_of table.old width p) q ⊎ ((p ≡ r) × Has row.now q)) }
{
    add_within(&mut table[r * width..r * width + width], row, range);
}
