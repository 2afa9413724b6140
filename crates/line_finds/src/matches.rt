//! Which patterns match which lines of a chunk.
ghost use Rattle.std.specs.Prelude.{◌≤◌, [], length, ◌∷◌, ℕ, ◌++◌, ◌||◌, false, ◌<◌, IsTrue, not};
ghost use Rattle.std.specs.Prelude.{get_or, replicate, ◌-◌, OnErr, All, ◌≡◌, IfOk, take, ◌+◌, map};
ghost use Rattle.std.specs.List.{filter};
ghost use Rattle.line_finds.specs.Working.Pairs.{marked_of, marked, pairs_of, lowered_pair};
ghost use Rattle.line_finds.specs.Working.Pairs.{moved_pair, is_outside, moved_to};
ghost use Rattle.line_finds.specs.Working.Finds.{is_other, has_own, left_numbers, is_paired};
ghost use Rattle.line_finds.specs.Working.Finds.{numbers_at, AreBelow};

use std::alloc::{AllocError, Global};
use std::marker::Model;

/// A pattern that matches a line, each by its number.
#[derive(Clone, Copy, Drop)]
struct Match {
    line: u32,
    number: u32,
}

/// Which patterns match which lines: pairs of a line's number and a pattern's, in any order.
#[derive(Drop)]
pub struct Matches {
    pairs: Vec<Match>,
}

impl Model for Matches {
    ghost use Rattle.std.specs.Prelude.{ℕ, List};
    ghost use Rattle.line_finds.specs.Working.Pairs.{pairs_of};

    ghost Value = { List (ℕ × ℕ) };

    ghost view = { λ matches. pairs_of matches.pairs.items };
}

impl Matches {
    /// No pairs.
    pub fn new(alloc: Global) -> Matches
        ensures { result ≡ [] }
    {
        Matches {
            pairs: Vec::new(alloc),
        }
    }

    /// The number of pairs.
    pub fn len(&self) -> usize
        ensures { result ≡ length self.now }
    {
        self.pairs.len()
    }

    /// A copy.
    pub fn copied(&self, alloc: Global) -> Result<Matches, AllocError>
        ensures { IfOk result (λ copy. copy ≡ self.now) }
    {
        let pairs = Vec::from_slice(alloc, &self.pairs)?;
        Ok(Matches { pairs })
    }

    /// Notes that a pattern matches a line. A number of 2^32 or more is refused as out of memory: no
    /// line of a chunk and no pattern has one.
    pub fn note(&mut self, line: usize, number: usize) -> Result<(), AllocError>
        ensures ok { IfOk result (λ _. self.new ≡ self.old ++ (line, number) ∷ []) }
        ensures err { OnErr result (self.new ≡ self.old) }
    {
        if line > u32::MAX as usize || number > u32::MAX as usize {
            return Err(AllocError);
        }
        let pair = Match {
            line: line as u32,
            number: number as u32,
        };
        push(&mut self.pairs, pair)
    }

    /// Removes the pairs of the `count` patterns from `first` on; the numbers of later patterns become
    /// smaller by `by`. Nothing is allocated.
    pub fn drop_numbers(&mut self, first: usize, count: usize, by: usize)
        ensures numbers { (k : ℕ) →
            numbers_at k self.new ≡ left_numbers first count by (numbers_at k self.old) }
        ensures within { (size : ℕ) → AreBelow size self.old → AreBelow size self.new }
        ensures same { All (λ pair. pair.1 < first) self.old → self.new ≡ self.old }
    {
        drop_patterns(&mut self.pairs, first, count, by);
    }

    /// Whether each pair is of a pattern before `first`.
    pub fn are_before(&self, first: usize) -> bool
        ensures { IsTrue result → All (λ pair. pair.1 < first) self.now }
    {
        all_before(&self.pairs, first)
    }

    /// Of each of `size` lines whether some pattern matches it.
    pub fn marks(&self, alloc: Global, size: usize) -> Result<Vec<bool>, AllocError>
        requires within { AreBelow size self.now }
        ensures size { IfOk result (λ marks. length marks.items ≡ size) }
        ensures marks { IfOk result (λ marks. (k : ℕ) → k < size →
            get_or marks.items k false ≡ is_paired k self.now) }
    {
        let mut marks = unmarked(alloc, size)?;
        mark_lines(&self.pairs, &mut marks);
        Ok(marks)
    }

    /// Of each of `size` lines whether one of the `count` patterns from `first` on matches it.
    pub fn marks_of(
        &self,
        alloc: Global,
        size: usize,
        first: usize,
        count: usize,
    ) -> Result<Vec<bool>, AllocError>
        requires within { AreBelow size self.now }
        ensures size { IfOk result (λ marks. length marks.items ≡ size) }
        ensures marks { IfOk result (λ marks. (k : ℕ) → k < size →
            get_or marks.items k false ≡ has_own first count (numbers_at k self.now)) }
    {
        let mut marks = unmarked(alloc, size)?;
        mark_lines_of(&self.pairs, first, count, &mut marks);
        Ok(marks)
    }

    /// Sets the marks of the lines that one of the `count` patterns from `first` on matches too.
    /// Nothing is allocated.
    pub fn add_marks_of(&self, first: usize, count: usize, marks: &mut Vec<bool>)
        requires { AreBelow (length marks.old.items) self.now }
        ensures size { length marks.new.items ≡ length marks.old.items }
        ensures marks { (k : ℕ) → get_or marks.new.items k false ≡
            (get_or marks.old.items k false || has_own first count (numbers_at k self.now)) }
    {
        mark_lines_of(&self.pairs, first, count, marks);
    }

    /// Sets anew, for each of some lines, whether some pattern matches it. Nothing is allocated.
    pub(crate) fn renew_marks(&self, marks: &mut Vec<bool>)
        requires { AreBelow (length marks.old.items) self.now }
        ensures size { length marks.new.items ≡ length marks.old.items }
        ensures marks { (k : ℕ) → k < length marks.old.items →
            get_or marks.new.items k false ≡ is_paired k self.now }
    {
        clear(marks);
        mark_lines(&self.pairs, marks);
    }

    /// Adds the pairs of another list's lines from `from` up to `to`, where line `from` becomes
    /// line `at`. After a refusal the pairs are what they were.
    pub fn add_part(
        &mut self,
        at: usize,
        other: &Matches,
        from: usize,
        to: usize,
    ) -> Result<(), AllocError>
        requires before { AreBelow at self.old }
        requires in_order { from ≤ to }
        ensures old { IfOk result (λ _. (k : ℕ) → k < at →
            numbers_at k self.new ≡ numbers_at k self.old) }
        ensures new { IfOk result (λ _. (k : ℕ) → k < to - from →
            numbers_at (at + k) self.new ≡ numbers_at (from + k) other.now) }
        ensures within { IfOk result (λ _. AreBelow (at + (to - from)) self.new) }
        ensures err { OnErr result (self.new ≡ self.old) }
    {
        let len = self.pairs.len();
        if let Err(fault) = self.add_each(at, other, from, to) {
            self.pairs.truncate(len);
            return Err(fault);
        }
        Ok(())
    }

    /// Adds the pairs of another list's lines from `from` up to `to`, where line `from` becomes line
    /// `at`. After a refusal some may have been added.
    fn add_each(
        &mut self,
        at: usize,
        other: &Matches,
        from: usize,
        to: usize,
    ) -> Result<(), AllocError>
        requires { from ≤ to }
        ensures ok { IfOk result (λ _. self.new ≡ self.old ++ moved_to at from to other.now) }
        ensures err { OnErr result (take (length self.old) self.new ≡ self.old) }
    {
        for pair in &other.pairs {
            self.add_one(at, *pair, from, to)?;
        }
        Ok(())
    }

    /// Adds a pair if its line is from `from` up to `to`, where line `from` becomes line `at`.
    fn add_one(&mut self, at: usize, pair: Match, from: usize, to: usize) -> Result<(), AllocError>
        requires { from ≤ to }
        ensures ok { IfOk result (λ _. self.new ≡ self.old ++ moved_to at from to ((pair.line, pair.number) ∷ [])) }
        ensures err { OnErr result (self.new ≡ self.old) }
    {
        let line = pair.line as usize;
        if line < from || to <= line {
            return Ok(());
        }
        let Some(place) = at.checked_add(line - from) else {
            return Err(AllocError);
        };
        self.note(place, pair.number as usize)
    }

    /// Removes the lines from `from` up to `to`; later lines move up. Nothing is allocated.
    pub fn remove_lines(&mut self, from: usize, to: usize)
        requires { from ≤ to }
        ensures before { (k : ℕ) → k < from → numbers_at k self.new ≡ numbers_at k self.old }
        ensures after { (k : ℕ) → numbers_at (from + k) self.new ≡ numbers_at (to + k) self.old }
        ensures within { (size : ℕ) → to ≤ size → AreBelow size self.old →
            AreBelow (size - (to - from)) self.new }
    {
        remove_between(&mut self.pairs, from, to);
    }
}

/// Adds a value. If there is no memory for it nothing changes.
fn push(pairs: &mut Vec<Match>, pair: Match) -> Result<(), AllocError>
    ensures ok { IfOk result (λ _. pairs.new.items ≡ pairs.old.items ++ pair ∷ []) }
    ensures err { OnErr result (pairs.new.items ≡ pairs.old.items) }
{
    pairs.push(pair)?;
    Ok(())
}

/// Removes the pairs of the `count` patterns from `first` on.
fn drop_pairs(pairs: &mut Vec<Match>, first: usize, count: usize)
    ensures { pairs.new.items ≡ filter (λ pair. is_other first count pair.number) pairs.old.items }
{
    pairs.retain(|pair| {
        (pair.number as usize) < first || count <= pair.number as usize - first
    });
}

/// Whether each pair is of a pattern before `first`.
fn all_before(pairs: &[Match], first: usize) -> bool
    ensures { IsTrue result → All (λ pair. pair.number < first) pairs.now }
{
    pairs.iter().all(|pair| (pair.number as usize) < first)
}

/// A pair after the numbers from `first` on became smaller.
fn lower(pair: Match, first: usize, by: usize) -> Match
    ensures { result ≡ lowered_pair first by pair }
{
    let number = pair.number as usize;
    if number < first {
        return pair;
    }
    Match {
        line: pair.line,
        number: number.saturating_sub(by) as u32,
    }
}

/// Lowers the numbers from `first` on.
fn lower_each(pairs: &mut [Match], first: usize, by: usize)
    ensures { pairs.new ≡ map (lowered_pair first by) pairs.old }
{
    for pair in pairs.iter_mut() {
        *pair = lower(*pair, first, by);
    }
}

/// Removes the pairs of the `count` patterns from `first` on, and lowers the later numbers.
fn drop_patterns(pairs: &mut Vec<Match>, first: usize, count: usize, by: usize)
    ensures { pairs.new.items ≡ map (lowered_pair first by)
        (filter (λ pair. is_other first count pair.number) pairs.old.items) }
{
    if all_before(pairs, first) {
        return;
    }
    drop_pairs(pairs, first, count);
    lower_each(pairs, first, by);
}

/// Removes the pairs of the lines from `from` up to `to`.
fn drop_within(pairs: &mut Vec<Match>, from: usize, to: usize)
    ensures { pairs.new.items ≡ filter (is_outside from to) pairs.old.items }
{
    pairs.retain(|pair| (pair.line as usize) < from || to <= pair.line as usize);
}

/// A pair after the lines from `from` up to `to` are removed.
fn move_up(pair: Match, from: usize, to: usize) -> Match
    requires { from ≤ to }
    ensures { result ≡ moved_pair from to pair }
{
    let line = pair.line as usize;
    if line < to {
        return pair;
    }
    Match {
        line: (line - (to - from)) as u32,
        number: pair.number,
    }
}

/// Moves the lines from line `to` on to line `from`.
fn move_each(pairs: &mut [Match], from: usize, to: usize)
    requires { from ≤ to }
    ensures { pairs.new ≡ map (moved_pair from to) pairs.old }
{
    for pair in pairs.iter_mut() {
        *pair = move_up(*pair, from, to);
    }
}

/// Removes the pairs of the lines from `from` up to `to`, and moves later lines up.
fn remove_between(pairs: &mut Vec<Match>, from: usize, to: usize)
    requires { from ≤ to }
    ensures { pairs.new.items ≡
        map (moved_pair from to) (filter (is_outside from to) pairs.old.items) }
{
    drop_within(pairs, from, to);
    move_each(pairs, from, to);
}

/// Marks of `size` lines, none of which is set.
fn unmarked(alloc: Global, size: usize) -> Result<Vec<bool>, AllocError>
    ensures size { IfOk result (λ marks. length marks.items ≡ size) }
    ensures unset { IfOk result (λ marks. marks.items ≡ replicate size false) }
{
    vec![in alloc; false; size]
}

/// Clears all marks.
fn clear(marks: &mut Vec<bool>)
    ensures { marks.new.items ≡ replicate (length marks.old.items) false }
{
    marks.fill(false);
}

/// Sets the marks of the lines of these pairs.
fn set_marks(pairs: &[Match], marks: &mut [bool])
    requires { AreBelow (length marks.old) (pairs_of pairs.now) }
    ensures size { length marks.new ≡ length marks.old }
    ensures set { marks.new ≡ marked pairs.now marks.old }
{
    for pair in pairs {
        marks[pair.line as usize] = true;
    }
}

/// Sets the marks of the lines of these pairs.
fn mark_lines(pairs: &[Match], marks: &mut Vec<bool>)
    requires { AreBelow (length marks.old.items) (pairs_of pairs.now) }
    ensures size { length marks.new.items ≡ length marks.old.items }
    ensures set { marks.new.items ≡ marked pairs.now marks.old.items }
{
    set_marks(pairs, marks);
}

/// Whether the pair is of one of the `count` patterns from `first` on.
fn is_own(pair: Match, first: usize, count: usize) -> bool
    ensures { result ≡ not (is_other first count pair.number) }
{
    let number = pair.number as usize;
    if number < first {
        return false;
    }
    number - first < count
}

/// Sets the marks of the lines that are paired with one of the `count` patterns from `first` on.
fn set_marks_of(pairs: &[Match], first: usize, count: usize, marks: &mut [bool])
    requires { AreBelow (length marks.old) (pairs_of pairs.now) }
    ensures size { length marks.new ≡ length marks.old }
    ensures set { marks.new ≡ marked_of first count pairs.now marks.old }
{
    for pair in pairs {
        marks[pair.line as usize] |= is_own(*pair, first, count);
    }
}

/// Sets the marks of the lines that are paired with one of the `count` patterns from `first` on.
fn mark_lines_of(pairs: &[Match], first: usize, count: usize, marks: &mut Vec<bool>)
    requires { AreBelow (length marks.old.items) (pairs_of pairs.now) }
    ensures size { length marks.new.items ≡ length marks.old.items }
    ensures set { marks.new.items ≡ marked_of first count pairs.now marks.old.items }
{
    set_marks_of(pairs, first, count, marks);
}
