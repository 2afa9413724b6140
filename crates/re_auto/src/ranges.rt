//! The words of a row that contain its members: usually few of them in a wide automaton.
ghost use Rattle.std.specs.Prelude.{◌≡◌, ℕ, ◌*◌, ◌/◌, ◌<◌, ◌≤◌, IfOk, length};
ghost use Rattle.re_auto.specs.Working.{Bits.Has, Ranges.{Covers, CoverRows}, Tables.most_words};

use crate::bits;
use std::alloc::{AllocError, Global};

/// Words of a row, from one up to and without another.
#[derive(Clone, Copy, Drop)]
pub struct WordRange {
    /// The first of them.
    pub first: u8,
    /// The word after the last.
    pub past: u8,
}

/// For each of the first `rows` rows the range from the first to the last word that has members.
pub fn ranges_of(
    alloc: Global,
    table: &[u64],
    width: usize,
    rows: usize,
) -> Result<Vec<WordRange>, AllocError>
    requires table { length table.now ≡ rows * width }
    requires few { width ≤ most_words }
    ensures { IfOk result (λ ranges. CoverRows ranges.items table.now rows width) }
{
    let mut ranges = Vec::with_capacity(alloc, rows)?;
    'rows: for r in 0..rows {
        ranges.push(range_of(bits::row(table, width, r)))?;
    }
    Ok(ranges)
}

/// The range of one row. It is empty where the row has no member.
pub fn range_of(row: &[u64]) -> WordRange
    requires { length row.now ≤ most_words }
    ensures { Covers result row.now }
{
    let past = past_word(row);
    let first = first_word(row).min(past);
    WordRange {
        first: first as u8,
        past: past as u8,
    }
}

// The index of the first word that is not 0, or the number of words where all are 0.
fn first_word(row: &[u64]) -> usize
    ensures { (q : ℕ) → Has row.now q → result ≤ q / 64 }
{
    'words: for k in 0..row.len() {
        if row[k] != 0 {
            return k;
        }
    }
    row.len()
}

// The index after the last word that is not 0, or 0 where all are 0.
fn past_word(row: &[u64]) -> usize
    ensures within { result ≤ length row.now }
    ensures past { (q : ℕ) → Has row.now q → q / 64 < result }
{
    let mut past = row.len();
    'words: while past > 0 {
        if row[past - 1] != 0 {
            return past;
        }
        past -= 1;
    }
    0
}
