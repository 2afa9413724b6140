//! How far a search for many strings may leap while none of them has begun.
ghost use Rattle.std.specs.Prelude.{◌≡◌, ℕ, ◌+◌, ◌^◌, ◌<◌, ◌≤◌, List, IfOk, length, map};
ghost use Rattle.std.specs.Prelude.{slice_index};
ghost use Rattle.{re_trees.specs.Bytes.Text, re_strings.specs.Working.Branches.text_at};
ghost use Rattle.re_strings.specs.Working.FixedSets.{AreLeapsOf, IsLeaps, NoneBegins, pair_row};
ghost use Rattle.re_strings.specs.Working.Keys.{keys};

use crate::keys::key_of;
use std::alloc::{AllocError, Global};
use std::cell::Cell;

// The longest window, even if all strings are longer.
const MOST_WINDOW: usize = 16;

// At how many places a text is looked at to see whether leaps pay.
const PLACES: usize = 64;

// How long a text is at least that is looked at.
const ENOUGH: usize = 8_192;

// After how many searches another is.
const SEARCHES: usize = 64;

/// What is known of pairs of bytes. The window at a place of a line is no longer than any string. If
/// the strings have its last two bytes only near their beginning, or not at all, then no string
/// begins at its first places.
#[derive(Drop)]
pub struct Leaps {
    /// The length of the window.
    pub window: usize,
    /// By the last two bytes of a window, at how many of its first places no string begins. Pairs
    /// of bytes may share a row, but no two pairs of ASCII bytes do.
    pub shifts: Vec<u8>,
}

impl Leaps {
    /// The first place, `place` or later, where a string may begin; the line's end if there is
    /// none. `fronts` has a window of two bytes, so it knows with which pairs strings begin.
    #[inline(always)]
    pub fn leap(&self, fronts: &Leaps, line: &[u8], place: usize, fold: bool) -> usize
        requires leaps { IsLeaps self.now }
        requires pair { 2 ≤ self.now.window }
        requires fronts { IsLeaps fronts.now }
        requires two { fronts.now.window ≡ 2 }
        requires within { place ≤ length line.now }
        ensures within { (place ≤ result) × (result ≤ length line.now) }
        ensures none { (strings : List Text) → AreLeapsOf strings self.now →
            AreLeapsOf strings fronts.now → NoneBegins strings (keys fold line.now) place result }
    {
        let mut at = self.stride(line, place, fold);
        'windows: while line.len() - at >= self.window {
            let shift = self.near_shift(fronts, line, at, fold);
            if shift == 0 {
                return at;
            }
            at = self.stride(line, at + shift, fold);
        }
        line.len()
    }

    // At how many places from this one on no string begins, by the last two bytes of the window
    // there, or else by its first two.
    #[inline(always)]
    fn near_shift(&self, fronts: &Leaps, line: &[u8], at: usize, fold: bool) -> usize
        requires leaps { IsLeaps self.now }
        requires pair { 2 ≤ self.now.window }
        requires fronts { IsLeaps fronts.now }
        requires two { fronts.now.window ≡ 2 }
        requires within { at + self.now.window ≤ length line.now }
        ensures short { result < self.now.window }
        ensures none { (strings : List Text) → AreLeapsOf strings self.now →
            AreLeapsOf strings fronts.now → NoneBegins strings (keys fold line.now) at (at + result) }
    {
        let shift = self.shift(line, at, fold);
        if shift > 0 {
            return shift;
        }
        fronts.shift(line, at, fold)
    }

    // Makes longest leaps, up to a window that allows none, or to where there is no room for one.
    // Since all are as long, the processor reads the next window before it knows what this one
    // allows.
    #[inline(always)]
    fn stride(&self, line: &[u8], place: usize, fold: bool) -> usize
        requires leaps { IsLeaps self.now }
        requires pair { 2 ≤ self.now.window }
        requires within { place ≤ length line.now }
        ensures within { (place ≤ result) × (result ≤ length line.now) }
        ensures none { (strings : List Text) → AreLeapsOf strings self.now →
            NoneBegins strings (keys fold line.now) place result }
    {
        let longest = self.window - 1;
        let mut at = place;
        'windows: while line.len() - at >= self.window {
            if self.shift(line, at, fold) < longest {
                return at;
            }
            at += longest;
        }
        at
    }

    /// Whether longest leaps can be made at many places of the text: then it is faster to leap than to
    /// step over each byte. A text that is too short to tell has them.
    #[inline(never)]
    pub fn are_long(&self, line: &[u8], fold: bool) -> bool
        requires leaps { IsLeaps self.now }
        requires pair { 2 ≤ self.now.window }
    {
        let stride = line.len() / PLACES;
        if stride < self.window.saturating_add(PLACES) {
            return true;
        }
        let mut long: usize = 0;
        'places: for number in 0..PLACES {
            // Lines may be as long as each other, so that the distance changes.
            let at = number * stride + number * number % PLACES;
            if self.shift(line, at, fold) + 1 == self.window {
                long = long.saturating_add(1);
            }
        }
        long.saturating_mul(self.window.saturating_add(1)) > 3 * PLACES
    }

    // At how many places from this one on no string begins, by the window there.
    #[inline(always)]
    fn shift(&self, line: &[u8], at: usize, fold: bool) -> usize
        requires leaps { IsLeaps self.now }
        requires pair { 2 ≤ self.now.window }
        requires within { at + self.now.window ≤ length line.now }
        ensures short { result < self.now.window }
        ensures none { (strings : List Text) → AreLeapsOf strings self.now →
            NoneBegins strings (keys fold line.now) at (at + result) }
    {
        let last = at + self.window - 1;
        let before = key_of(fold, line[last - 1]);
        let byte = key_of(fold, line[last]);
        self.shifts[row_of(before, byte)] as usize
    }
}

/// Whether leaps pay in the texts that are searched. No contract depends on it.
#[derive(Drop)]
pub struct Payoff {
    pays: Cell<bool>,
    // After how many searches a text is looked at.
    wait: Cell<usize>,
}

impl Payoff {
    /// No text was looked at yet.
    pub fn new() -> Payoff {
        Payoff {
            pays: Cell::new(true),
            wait: Cell::new(0),
        }
    }

    /// Whether these leaps pay in a text, or did in the last that was looked at.
    #[inline(never)]
    pub fn of(&self, leaps: &Leaps, line: &[u8], fold: bool) -> bool
        requires { IsLeaps leaps.now }
    {
        if leaps.window < 2 {
            return false;
        }
        let wait = self.wait.get();
        if wait > 0 || line.len() < ENOUGH {
            self.wait.set(wait.saturating_sub(1));
            return self.pays.get();
        }
        let pays = leaps.are_long(line, fold);
        self.wait.set(SEARCHES);
        self.pays.set(pays);
        pays
    }
}

/// What is known of the pairs of bytes of these strings, in windows of this length.
pub fn leaps_of(alloc: Global, strings: &[&[u8]], window: usize) -> Result<Leaps, AllocError>
    requires few { window ≤ 16 }
    requires long { (i : ℕ) → i < length strings.now →
        window ≤ length (text_at (map (λ s. s.now) strings.now) i) }
    ensures leaps { IfOk result IsLeaps }
    ensures window { IfOk result (λ l. l.window ≡ window) }
    ensures right { IfOk result (λ l. AreLeapsOf (map (λ s. s.now) strings.now) l) }
{
    let longest = window.saturating_sub(1) as u8;
    let mut shifts = all_alike(alloc, longest, 32_896)?;
    'strings: for place in 0..strings.len() {
        shorten(&mut shifts, strings[place], window);
    }
    Ok(Leaps { window, shifts })
}

// `rows` leaps, each of this length.
fn all_alike(alloc: Global, shift: u8, rows: usize) -> Result<Vec<u8>, AllocError>
    ensures all { IfOk result (λ shifts. length shifts.items ≡ rows) }
    ensures alike { IfOk result
        (λ shifts. (n : ℕ) → n < rows → slice_index shifts.items n ≡ shift) }
{
    vec![in alloc; shift; rows]
}

/// The length of the shortest string, at most `MOST_WINDOW`.
pub fn window_of(strings: &[&[u8]]) -> usize
    ensures few { result ≤ 16 }
    ensures long { (i : ℕ) → i < length strings.now →
        result ≤ length (text_at (map (λ s. s.now) strings.now) i) }
{
    let mut window = MOST_WINDOW;
    'strings: for place in 0..strings.len() {
        window = window.min(strings[place].len());
    }
    window
}

// The row of a pair of bytes.
#[inline(always)]
fn row_of(before: u8, byte: u8) -> usize
    ensures { result ≡ pair_row before byte }
{
    before as usize * 128 + byte as usize
}

// Shortens the leaps of all pairs in a string's window.
fn shorten(shifts: &mut Vec<u8>, string: &[u8], window: usize)
    requires full { length shifts.old.items ≡ 32896 }
    requires few { window ≤ 16 }
    requires long { window ≤ length string.now }
    ensures full { length shifts.new.items ≡ 32896 }
    ensures lower { (n : ℕ) → slice_index shifts.new.items n ≤ slice_index shifts.old.items n }
    ensures short { (j : ℕ) → j + 2 ≤ window →
        slice_index shifts.new.items
        (pair_row (slice_index string.now j) (slice_index string.now (j + 1)))
        + j + 2 ≤ window }
{
    let mut end = 2;
    'pairs: while end <= window {
        let row = row_of(string[end - 2], string[end - 1]);
        lower(shifts, row, (window - end) as u8);
        end += 1;
    }
}

// Makes a leap no longer than this.
fn lower(shifts: &mut Vec<u8>, row: usize, shift: u8)
    requires { row < length shifts.old.items }
    ensures same { length shifts.new.items ≡ length shifts.old.items }
    ensures lower { (n : ℕ) → slice_index shifts.new.items n ≤ slice_index shifts.old.items n }
    ensures short { slice_index shifts.new.items row ≤ shift }
{
    if shifts[row] > shift {
        shifts[row] = shift;
    }
}
