//! Numbered sets of positions, and the set that each becomes over a byte, as far as that is held.
ghost use Rattle.std.specs.Prelude.{◌↔◌, length, false, ◌++◌, OnOk, ◌-◌, ℕ, IfOk, ◌≤◌, slice_index};
ghost use Rattle.std.specs.Prelude.{IfSome, ◌≡◌, ◌∷◌, slice_get, IsTrue, ◌+◌, ◌<◌, [], Some, ◌*◌};
ghost use Rattle.std.specs.NonZero.{non_zero_usize_get};
ghost use Rattle.re_trees.specs.Working.Trees.{expression_of};
ghost use Rattle.re_auto.specs.Working.StateSets.{IsNowhere, IsSame, IsMadeFor, IsNextSet};
ghost use Rattle.re_steps.specs.Working.Rows.{IsMarkOf, IsCellOf, IsKnownFor, IsRightFor, IsBlank};
ghost use Rattle.re_steps.specs.Working.Rows.{limit, IsSoundFor, cache_of, Extends, Keeps};
ghost use Rattle.re_steps.specs.Working.{Rows.IsKnownCell, Stages.IsReadied};
ghost use Rattle.re_auto.specs.declared.step.state_set.StateSet.{StateSet as Set};

use crate::pace::Pace;
use crate::pairs::Pairs;
use crate::stride::Stride;
use indexmap::IndexSet;
use re_auto::{Automaton, Mode, StateSet};
use std::alloc::{AllocError, Global};
use std::num::NonZeroUsize;

/// The bit that the cell of a set has, on top of its row, if a matched stretch ends there.
pub const LIMIT: u32 = 1 << 30;

/// Where on a line a set of positions accepts.
#[derive(Clone, Copy, Drop)]
pub struct Acceptance {
    /// Before the line's end.
    pub inside: bool,
    /// At the line's end.
    pub at_end: bool,
}

/// Inputs of a line search.
#[derive(Clone, Copy)]
pub struct LineSearch<'a, 'l> {
    /// Where memory for what is kept comes from.
    pub alloc: Global,
    /// The automaton.
    pub automaton: &'a Automaton,
    /// The mode.
    pub mode: Mode,
    /// The line.
    pub line: &'l [u8],
}

/// Numbered sets of positions, and for each set a row of cells, one for each class of bytes. A cell
/// that is held has the row of the set after such a byte. Row 0 is that of the set without
/// positions, the next that of a line's first place.
#[derive(Drop)]
pub struct StepTable {
    /// The class of each byte.
    pub classes: Vec<u8>,
    /// How far apart rows lie.
    pub stride: Stride,
    /// The sets.
    pub sets: IndexSet<StateSet>,
    /// Where matched stretches end, by the number of the set.
    pub marks: Vec<Acceptance>,
    /// The cells.
    pub pairs: Pairs,
    /// The set that was worked out last.
    pub scratch: StateSet,
    /// Whether keeping pairs pays.
    pub pace: Pace,
}

impl StepTable {
    /// A table without rows, for at most `most` pairs of sets of this automaton and bytes.
    pub fn new(
        alloc: Global,
        automaton: &Automaton,
        most: NonZeroUsize,
    ) -> Result<StepTable, AllocError>
        ensures blank { IfOk result IsBlank }
        ensures made { IfOk result
            (λ table. IsMadeFor (expression_of automaton.now) table.scratch) }
        ensures most { IfOk result (λ table. table.pairs.most ≡ non_zero_usize_get most) }
    {
        let scratch = blank_set(alloc, automaton)?;
        let pairs = Pairs::new(alloc, most)?;
        Ok(StepTable {
            classes: Vec::new(alloc),
            stride: Stride::for_width(0),
            sets: IndexSet::new(alloc),
            marks: Vec::new(alloc),
            pairs,
            scratch,
            pace: Pace::new(),
        })
    }

    // Whether there are no rows.
    #[inline(always)]
    fn is_blank(&self) -> bool
        ensures { IsTrue result ↔ (length self.now.marks.items ≡ 0) }
    {
        self.marks.is_empty()
    }

    /// Whether there are rows. If there are none, they are made, provided that it is worth while
    /// and there is memory for them.
    #[inline(always)]
    pub fn is_ready(&mut self, asked: &LineSearch) -> bool
        requires known { IsKnownFor (expression_of asked.now.automaton.now) asked.now.mode
            self.old }
        ensures right { IsTrue result → IsRightFor asked.now self.new }
        ensures blank { result ≡ false → IsBlank self.new }
        ensures readied { IsReadied (cache_of self.old) (cache_of self.new) }
        ensures keeps { Keeps self.old self.new }
    {
        if !self.is_blank() {
            return true;
        }
        self.pace.begins(asked.line.len()) && self.begin(asked)
    }

    // Removes all rows.
    fn clear(&mut self)
        ensures blank { IsBlank self.new }
        ensures keeps { Keeps self.old self.new }
    {
        self.sets.clear();
        self.marks.clear();
        self.pairs.clear();
    }

    /// Removes all rows after a search that gave up.
    pub fn give_up(&mut self)
        ensures blank { IsBlank self.new }
        ensures keeps { Keeps self.old self.new }
    {
        self.pace.give_up();
        self.clear();
    }

    // Makes the first two rows, in which nothing is held. If an allocation fails, there are none.
    fn begin(&mut self, asked: &LineSearch) -> bool
        requires blank { IsBlank self.old }
        ensures right { IsTrue result → IsRightFor asked.now self.new }
        ensures blank { result ≡ false → IsBlank self.new }
        ensures none { self.new.pairs.entries ≡ [] }
        ensures keeps { Keeps self.old self.new }
    {
        if self.make_rows(asked).is_err() {
            self.clear();
            return false;
        }
        true
    }

    // Makes the first two rows.
    fn make_rows(&mut self, asked: &LineSearch) -> Result<(), AllocError>
        requires blank { IsBlank self.old }
        ensures right { OnOk result (IsRightFor asked.now self.new) }
        ensures none { OnOk result (self.new.pairs.entries ≡ []) }
        ensures keeps { Keeps self.old self.new }
    {
        self.classes.clear();
        self.classes.extend_from_slice(asked.automaton.classes())?;
        self.stride = Stride::for_width(count_of(self.classes.as_slice()));
        let nowhere = blank_set(asked.alloc, asked.automaton)?;
        self.add(asked, nowhere)?;
        let mut start = blank_set(asked.alloc, asked.automaton)?;
        asked.automaton.start(&mut start);
        self.add(asked, start)?;
        Ok(())
    }

    /// Removes all rows, then makes the first two and one for the scratch set, in which nothing is
    /// held. Returns the cell that leads to that set. `None` if that does not pay or an allocation
    /// fails: then the table must not be used any more.
    #[inline(never)]
    pub fn begin_anew(&mut self, asked: &LineSearch) -> Option<u32>
        requires made { IsMadeFor (expression_of asked.now.automaton.now) self.old.scratch }
        ensures right { IfSome result (λ _. IsRightFor asked.now self.new) }
        ensures none { IfSome result (λ _. self.new.pairs.entries ≡ []) }
        ensures cell { (from : Set) (byte : ℕ)
            → IsNextSet (expression_of asked.now.automaton.now) asked.now.mode from byte
            self.old.scratch → IfSome result (IsKnownCell asked.now self.new from byte) }
        ensures keeps { Keeps self.old self.new }
    {
        if !self.pace.affords_anew(&self.scratch) {
            return None;
        }
        self.clear();
        if !self.begin(asked) {
            return None;
        }
        let number = self.number_of(asked)?;
        Some(self.cell_of(asked.mode, number))
    }

    /// The number of a set that is the same as the scratch set; it is added if there is none.
    /// `None` if there is no memory or room for it: then the table must not be used any more.
    pub fn number_of(&mut self, asked: &LineSearch) -> Option<usize>
        requires sound { IsSoundFor asked.now self.old }
        requires made { IsMadeFor (expression_of asked.now.automaton.now) self.old.scratch }
        ensures sound { IfSome result (λ _. IsSoundFor asked.now self.new) }
        ensures kept { IfSome result (λ _. Extends self.old self.new) }
        ensures number { IfSome result
            (λ number. (same : Set) × (slice_get self.new.sets.keys number ≡ Some same) ×
            IsSame same self.old.scratch) }
        ensures keeps { Keeps self.old self.new }
    {
        if let Some(number) = self.sets.get_index_of(&self.scratch) {
            return Some(number);
        }
        let Ok(mut set) = StateSet::blank(asked.alloc, asked.automaton) else {
            return None;
        };
        set.copy_from(&self.scratch);
        match self.add(asked, set) {
            Ok(number) => Some(number),
            Err(_) => None,
        }
    }

    // Adds a set after the others, and returns its number.
    fn add(&mut self, asked: &LineSearch, set: StateSet) -> Result<usize, AllocError>
        requires sound { IsSoundFor asked.now self.old }
        requires made { IsMadeFor (expression_of asked.now.automaton.now) set }
        requires fresh { (t : ℕ) (other : Set) → slice_get self.old.sets.keys t ≡ Some other →
            IsSame other set → ⊥ }
        ensures sound { OnOk result (IsSoundFor asked.now self.new) }
        ensures kept { OnOk result (Extends self.old self.new) }
        ensures added { OnOk result (self.new.sets.keys ≡ self.old.sets.keys ++ set ∷ []) }
        ensures number { IfOk result (λ number. slice_get self.new.sets.keys number ≡ Some set) }
        ensures keeps { Keeps self.old self.new }
    {
        if !self.has_room() {
            return Err(AllocError);
        }
        self.pairs.add_row(self.stride.width())?;
        self.marks.push(mark_of(asked.automaton, asked.mode, &set))?;
        let (number, _) = self.sets.insert_full(set)?;
        Ok(number)
    }

    // Whether there is room for one more row. There may be three more sets than pairs.
    fn has_room(&self) -> bool
        ensures cells { IsTrue result → length self.now.pairs.cells + self.now.stride ≤ limit }
        ensures sets { IsTrue result → length self.now.sets.keys < self.now.pairs.most + 3 }
    {
        let fits = self.pairs.cells().len() <= LIMIT as usize - self.stride.width();
        fits & (self.sets.len() < self.pairs.most().saturating_add(3))
    }

    /// The mark of the set of this number.
    #[inline(always)]
    pub fn mark(&self, number: usize) -> Acceptance
        requires { number < length self.now.marks.items }
        ensures { slice_get self.now.marks.items number ≡ Some result }
    {
        self.marks[number]
    }

    /// The cell of the set of this number.
    pub fn cell_of(&self, mode: Mode, number: usize) -> u32
        requires within { number < length self.now.marks.items }
        requires small { number * self.now.stride < limit }
        ensures { (mark : Acceptance) → slice_get self.now.marks.items number ≡ Some mark →
            IsCellOf mode mark (number * self.now.stride) result }
    {
        let row = self.stride.row(number) as u32;
        if mode == Mode::Search && self.marks[number].inside {
            return row + LIMIT;
        }
        row
    }
}

// A set without positions. If an allocation fails, the error says that alone.
fn blank_set(alloc: Global, automaton: &Automaton) -> Result<StateSet, AllocError>
    ensures made { IfOk result (IsMadeFor (expression_of automaton.now)) }
    ensures nowhere { IfOk result IsNowhere }
{
    match StateSet::blank(alloc, automaton) {
        Ok(set) => Ok(set),
        Err(_) => Err(AllocError),
    }
}

// The mark of a set.
fn mark_of(automaton: &Automaton, mode: Mode, set: &StateSet) -> Acceptance
    requires { IsMadeFor (expression_of automaton.now) set.now }
    ensures { IsMarkOf (expression_of automaton.now) mode set.now result }
{
    Acceptance {
        inside: automaton.accepts(mode, set, false),
        at_end: automaton.accepts(mode, set, true),
    }
}

// The number of classes: all are below it.
fn count_of(classes: &[u8]) -> usize
    ensures few { result ≤ 256 }
    ensures above { (c : ℕ) → c < length classes.now → slice_index classes.now c < result }
{
    let mut count = 0;
    'bytes: for c in 0..classes.len() {
        let above = classes[c] as usize + 1;
        if above > count {
            count = above;
        }
    }
    count
}
