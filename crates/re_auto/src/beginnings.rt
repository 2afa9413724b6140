//! Sets of bytes, the next of which in a line is found quickly.
ghost use Rattle.std.specs.Prelude.{IsTrue, false, ℕ, ◌≤◌, slice_index_or, length, ◌<◌, ◌≡◌};
ghost use Rattle.std.specs.Prelude.{slice_index, ◌+◌};
ghost use Rattle.re_auto.specs.Working.Beginnings.{IsFirstMarked, IsMarked};

use std::marker::Model;

/// A set of bytes. The next byte of a text that is in it is found quickly. Contracts see a mark for
/// each byte.
#[derive(Drop)]
pub struct Beginnings {
    marks: [bool; 256],
    // Whether no byte is in it.
    is_empty: bool,
}

impl Model for Beginnings {
    ghost use Rattle.std.specs.Prelude.{List, Bool, ℕ, IsTrue};
    ghost use Rattle.re_auto.specs.Working.Beginnings.{IsMarked};

    ghost Value = { List Bool };

    ghost view = { λ b. b.marks };

    ghost invariant = { λ b. IsTrue b.is_empty → (c : ℕ) → ¬ IsMarked b.marks c };
}

impl Beginnings {
    /// The set of the bytes that are marked.
    pub fn of(marks: [bool; 256]) -> Beginnings
        ensures { result ≡ marks }
    {
        let is_empty = has_none(&marks);
        Beginnings { marks, is_empty }
    }

    /// Whether the byte is in the set.
    #[inline(always)]
    pub fn has(&self, byte: u8) -> bool
        ensures { result ≡ slice_index_or self.now byte false }
    {
        self.marks[byte as usize]
    }

    /// The first place, `place` or later, whose byte is in the set, or the line's end if there is
    /// none.
    #[inline]
    pub fn next_in(&self, line: &[u8], place: usize) -> usize
        requires { place ≤ length line.now }
        ensures { IsFirstMarked self.now line.now place result }
    {
        if self.is_empty {
            return line.len();
        }
        let mut next = self.pass_fours(line, place);
        'places: while next < line.len() && !self.has(line[next]) {
            next += 1;
        }
        next
    }

    // A place before which no byte from `place` on is in the set. It is found four bytes at a time.
    #[inline(always)]
    fn pass_fours(&self, line: &[u8], place: usize) -> usize
        requires within { place ≤ length line.now }
        ensures on { (place ≤ result) × (result ≤ length line.now) }
        ensures passed { (k : ℕ) → place ≤ k → k < result →
            ¬ IsMarked self.now (slice_index line.now k) }
    {
        let mut next = place;
        'fours: while line.len() - next >= 4 && !self.has_one_of(line, next) {
            next += 4;
        }
        next
    }

    // Whether one of the four bytes from a place on is in the set.
    #[inline(always)]
    fn has_one_of(&self, line: &[u8], from: usize) -> bool
        requires { from + 4 ≤ length line.now }
        ensures { result ≡ false → (k : ℕ) → from ≤ k → k < from + 4 →
            ¬ IsMarked self.now (slice_index line.now k) }
    {
        let front = self.has(line[from]) | self.has(line[from + 1]);
        let back = self.has(line[from + 2]) | self.has(line[from + 3]);
        front | back
    }
}

// Whether no byte is marked.
fn has_none(marks: &[bool; 256]) -> bool
    ensures { IsTrue result → (c : ℕ) → ¬ IsMarked marks.now c }
{
    'bytes: for byte in 0..256usize {
        if marks[byte] {
            return false;
        }
    }
    true
}
