//! The position automaton of an expression, and the steps of sets of its positions.
ghost use Rattle.std.specs.Prelude.{suc, slice_get, Some, IfErr, false, slice_index, length, List};
ghost use Rattle.std.specs.Prelude.{IfOk, ◌↔◌, IsTrue, ◌≤◌, true, ◌-◌, Bool, ℕ, ◌<◌, ◌≡◌};
ghost use Rattle.re_trees.specs.{Bytes.Text, Working.Trees.expression_of, Holds.{positions, Holds}};
ghost use Rattle.{re_trees.specs.Limits.most_positions, re_auto.specs.Working.SteppedSets.MayBegin};
ghost use Rattle.re_auto.specs.Working.{SteppedSets.IsNext, Positions.{is_begin, is_end, part_of}};
ghost use Rattle.re_auto.specs.Working.StateSets.{IsAccepting, IsNowhere, IsMadeFor, IsNextSet};
ghost use Rattle.re_auto.specs.Working.{StateSets.{StandsAt, AreAlikeInClasses}, Bits.{Has, Are}};
ghost use Rattle.re_auto.specs.Working.Tables.{words_for, Marks, IsRefused, CanBegin};
ghost use Rattle.re_auto.specs.declared.mode.Mode.TheVariants.{Search};
ghost use Rattle.re_meter.specs.Meters.{many_built};

mod one_word;

use crate::beginnings::Beginnings;
use crate::bits;
use crate::build::BuildFault;
use crate::build::fill::build_tables;
use crate::mode::Mode;
use crate::step::state_set::StateSet;
use crate::tables::Tables;
use re_meter::Meter;
use re_trees::Tree;
use std::alloc::{AllocError, Global};
use std::marker::Model;

/// The position automaton of an expression. Contracts see it as the tree that it was built from.
#[derive(Drop)]
pub struct Automaton {
    tree: Tree,
    tables: Tables,
}

impl Model for Automaton {
    ghost use Rattle.re_trees.specs.declared.tree.Tree.{Tree};
    ghost use Rattle.re_trees.specs.contracts.tree.Tree as e;
    ghost use Rattle.re_trees.specs.Working.Trees.{expression_of};
    ghost use Rattle.std.specs.Coded.{codes};
    ghost use Rattle.re_auto.specs.Working.Tables.{AreTablesOf};

    ghost Value = { Tree };

    ghost coded = { Prim.hlevel (codes, e.the_row.coded) };

    ghost view = { λ a. a.tree };

    ghost invariant = { λ a. AreTablesOf (expression_of a.tree) a.tables };
}

impl Automaton {
    /// The automaton of an expression, which keeps the tree. The errors are `Memory`, and
    /// `TooLarge` exactly where the expression has more than 4,096 positions once its intervals are
    /// written out, which is known before any memory is allocated.
    pub fn build(alloc: Global, tree: Tree) -> Result<Automaton, BuildFault>
        ensures built { IfOk result (λ automaton. automaton ≡ tree) }
        ensures few { IfOk result (λ _. positions (expression_of tree) ≤ most_positions) }
        ensures refused { IfErr result (IsRefused (positions (expression_of tree))) }
    {
        match build_tables(alloc, &tree) {
            Ok(tables) => Ok(Automaton { tree, tables }),
            Err(fault) => Err(fault),
        }
    }

    /// Makes the set that of a line's first place.
    pub fn start(&self, into: &mut StateSet)
        requires made { IsMadeFor (expression_of self.now) into.old }
        ensures made { IsMadeFor (expression_of self.now) into.new }
        ensures stands { (mode : Mode) (line : Text) →
            StandsAt (expression_of self.now) mode line 0 into.new }
    {
        bits::clear(&mut into.words);
        into.at_begin = true;
    }

    /// Sets `into` to what `from` becomes by one more byte, which counts as one step.
    pub fn advance(
        &self,
        mode: Mode,
        from: &StateSet,
        byte: u8,
        into: &mut StateSet,
        meter: &mut Meter,
    )
        requires from { IsMadeFor (expression_of self.now) from.now }
        requires into { IsMadeFor (expression_of self.now) into.old }
        ensures made { IsMadeFor (expression_of self.now) into.new }
        ensures next { IsNextSet (expression_of self.now) mode from.now byte into.new }
        ensures stands { (line : Text) (j : ℕ) → slice_get line j ≡ Some byte
            → StandsAt (expression_of self.now) mode line j from.now →
            StandsAt (expression_of self.now) mode line (suc j) into.new }
        ensures counted { meter.new ≡ many_built 1 meter.old }
    {
        self.step(mode, from.at_begin, &from.words, byte, &mut into.words);
        into.at_begin = false;
        meter.add_built(1);
    }

    /// Whether some stretch of the mode that ends here is matched; `at_end` says that the place is
    /// the line's last.
    pub fn accepts(&self, mode: Mode, set: &StateSet, at_end: bool) -> bool
        requires made { IsMadeFor (expression_of self.now) set.now }
        ensures reported { IsTrue result ↔ IsAccepting (expression_of self.now) mode set.now at_end }
        ensures matched { (line : Text) (j : ℕ) →
            StandsAt (expression_of self.now) mode line j set.now → at_end ≡ is_end line j
            → IsTrue result ↔
            ((i : ℕ) × MayBegin mode (is_begin i) × Holds line (expression_of self.now) i j) }
    {
        let longer = self.has_last(&set.words, at_end);
        let may_begin = mode.may_begin(set.at_begin);
        let empty = self.is_empty(set.at_begin, at_end);
        longer | (may_begin & empty)
    }

    /// Whether a stretch inside a line can begin with this byte. Where none can, a set that is
    /// nowhere stays so in mode `Search`, so the step over the byte needs no work.
    #[inline(always)]
    pub fn begins(&self, byte: u8) -> bool
        ensures can { IsTrue result ↔ CanBegin (part_of (expression_of self.now) 0) byte }
        ensures stays { result ≡ false → (set : StateSet) (line : Text) (j : ℕ) → IsNowhere set →
            slice_get line j ≡ Some byte
            → StandsAt (expression_of self.now) Search line j set →
            StandsAt (expression_of self.now) Search line (suc j) set }
    {
        self.tables.beginnings.has(byte)
    }

    /// The first place, `place` or later, with whose byte a stretch inside a line can begin, or the
    /// line's end where there is none. Each byte before it counts as a built step: while no stretch
    /// is on its way, such a byte takes a set to itself.
    #[inline(always)]
    pub fn next_beginning(&self, line: &[u8], place: usize, meter: &mut Meter) -> usize
        requires { place ≤ length line.now }
        ensures within { (place ≤ result) × (result ≤ length line.now) }
        ensures passed { (k : ℕ) → place ≤ k → k < result →
            ¬ CanBegin (part_of (expression_of self.now) 0) (slice_index line.now k) }
        ensures stops { result < length line.now →
            CanBegin (part_of (expression_of self.now) 0) (slice_index line.now result) }
        ensures counted { place < result → meter.new ≡ many_built (result - place) meter.old }
        ensures none { result ≡ place → meter.new ≡ meter.old }
    {
        let next = self.tables.beginnings.next_in(line, place);
        if next > place {
            meter.add_built((next - place) as u64);
        }
        next
    }

    /// The class of each of the 256 bytes: bytes of one class are taken by the same positions.
    pub fn classes(&self) -> &[u8]
        ensures len { length result.now ≡ 256 }
        ensures alike { AreAlikeInClasses (expression_of self.now) result.now }
    {
        &self.tables.class_of
    }

    /// The number of positions.
    pub fn size(&self) -> usize
        ensures { result ≡ positions (expression_of self.now) }
    {
        self.tables.size
    }

    /// The words of an empty set.
    pub(crate) fn blank_words(&self, alloc: Global) -> Result<Vec<u64>, AllocError>
        ensures { IfOk result
            (λ words. Are words.items (λ _. ⊥) (words_for (positions (expression_of self.now)))) }
    {
        vec![in alloc; 0; self.tables.width]
    }

    // The words after one more byte.
    fn step(&self, mode: Mode, at_begin: bool, from: &[u64], byte: u8, into: &mut [u64])
        requires from { Are from.now
            (λ q. Has from.now q × (q < positions (expression_of self.now)))
            (words_for (positions (expression_of self.now))) }
        requires into { length into.old ≡ length from.now }
        ensures len { length into.new ≡ length into.old }
        ensures next { IsNext (part_of (expression_of self.now) 0) mode at_begin (Has from.now) byte
            (Has into.new) }
    {
        if self.tables.width == 1 {
            let word = self.step_word(mode, at_begin, bits::only_word(from), byte);
            bits::put_word(into, word);
            return;
        }
        self.step_words(mode, at_begin, from, byte, into);
    }

    // The same, word by word.
    fn step_words(&self, mode: Mode, at_begin: bool, from: &[u64], byte: u8, into: &mut [u64])
        requires from { Are from.now
            (λ q. Has from.now q × (q < positions (expression_of self.now)))
            (words_for (positions (expression_of self.now))) }
        requires into { length into.old ≡ length from.now }
        ensures len { length into.new ≡ length into.old }
        ensures next { IsNext (part_of (expression_of self.now) 0) mode at_begin (Has from.now) byte
            (Has into.new) }
    {
        if mode.may_begin(at_begin) {
            bits::copy(into, self.beginning(at_begin));
        } else {
            bits::clear(into);
        }
        bits::add_rows(into, &self.tables.follow, &self.tables.ranges, from);
        bits::keep(into, self.taking(byte));
    }

    /// The positions that a stretch can begin with at the line's first place, or at any other.
    #[inline(always)]
    pub fn beginning(&self, at_begin: bool) -> &[u64]
        ensures { Are result.now (λ q. (part_of (expression_of self.now) 0).first at_begin q)
            (words_for (positions (expression_of self.now))) }
    {
        if at_begin {
            return &self.tables.first_at_begin;
        }
        &self.tables.first_inside
    }

    /// The positions that a stretch can end with at the line's last place, or at any other.
    #[inline(always)]
    pub fn ending(&self, at_end: bool) -> &[u64]
        ensures { Are result.now (λ q. (part_of (expression_of self.now) 0).last at_end q)
            (words_for (positions (expression_of self.now))) }
    {
        if at_end {
            return &self.tables.last_at_end;
        }
        &self.tables.last_inside
    }

    /// The positions that can come directly after position `p`.
    #[inline(always)]
    pub fn following(&self, p: usize) -> &[u64]
        requires { p < positions (expression_of self.now) }
        ensures { Are result.now (λ q. (part_of (expression_of self.now) 0).follow p q)
            (words_for (positions (expression_of self.now))) }
    {
        bits::row(&self.tables.follow, self.tables.width, p)
    }

    /// The bytes that some position takes.
    pub fn bytes(&self) -> Beginnings
        ensures { Marks result (λ c. (q : ℕ) × (part_of (expression_of self.now) 0).takes q c) }
    {
        let mut marks = [false; 256];
        'bytes: for byte in 0..256usize {
            let taking = self.taking(byte as u8);
            marks[byte] = bits::meets(taking, taking);
        }
        Beginnings::of(marks)
    }

    /// The positions that take the byte.
    #[inline(always)]
    pub fn taking(&self, byte: u8) -> &[u64]
        ensures { Are result.now (λ q. (part_of (expression_of self.now) 0).takes q byte)
            (words_for (positions (expression_of self.now))) }
    {
        let class = self.tables.class_of[byte as usize];
        bits::row(&self.tables.takes, self.tables.width, class as usize)
    }

    // Whether a stretch that is not empty can end with one of the positions.
    fn has_last(&self, words: &[u64], at_end: bool) -> bool
        requires made { length words.now ≡ words_for (positions (expression_of self.now)) }
        ensures { IsTrue result ↔
            ((q : ℕ) × Has words.now q × (part_of (expression_of self.now) 0).last at_end q) }
    {
        bits::meets(words, self.ending(at_end))
    }

    // Whether the expression holds on the empty stretch at a place of this kind.
    fn is_empty(&self, at_begin: bool, at_end: bool) -> bool
        ensures { IsTrue result ↔ (part_of (expression_of self.now) 0).empty at_begin at_end }
    {
        let empty = &self.tables.empty;
        match (at_begin, at_end) {
            (true, true) => empty.on_empty_line,
            (true, false) => empty.at_begin,
            (false, true) => empty.at_end,
            (false, false) => empty.inside,
        }
    }
}
