//! Sets of positions that are one word: there are from 1 to 64 positions.
ghost use Rattle.std.specs.Prelude.{◌≡◌, ℕ, suc, ◌<◌, ◌↔◌, ◌⊎◌, Some, IsTrue, slice_get};
ghost use Rattle.re_trees.specs.{Working.Trees.expression_of, Bytes.Text, Holds.positions};
ghost use Rattle.re_auto.specs.Working.{Tables.HasOneWord, SteppedSets.{MayBegin, IsNext}};
ghost use Rattle.re_auto.specs.Working.{Bits.InWord, StateSets.{IsNextSet, StandsAt, IsMadeFor}};
ghost use Rattle.{re_auto.specs.Working.Positions.part_of, re_meter.specs.Meters.many_built};

use crate::bits;
use crate::mode::Mode;
use crate::step::automaton::Automaton;
use crate::step::state_set::StateSet;
use re_meter::Meter;

impl Automaton {
    /// Whether there are from 1 to 64 positions, so that a set of them is one word, which can be
    /// advanced in place.
    #[inline(always)]
    pub fn has_one_word(&self) -> bool
        ensures { IsTrue result ↔ HasOneWord (expression_of self.now) }
    {
        self.tables.width == 1
    }

    /// Sets the set to what it becomes by one more byte, which counts as one step.
    #[inline(always)]
    pub fn advance_in_place(&self, mode: Mode, set: &mut StateSet, byte: u8, meter: &mut Meter)
        requires one { HasOneWord (expression_of self.now) }
        requires made { IsMadeFor (expression_of self.now) set.old }
        ensures made { IsMadeFor (expression_of self.now) set.new }
        ensures next { IsNextSet (expression_of self.now) mode set.old byte set.new }
        ensures stands { (line : Text) (j : ℕ) → slice_get line j ≡ Some byte
            → StandsAt (expression_of self.now) mode line j set.old →
            StandsAt (expression_of self.now) mode line (suc j) set.new }
        ensures counted { meter.new ≡ many_built 1 meter.old }
    {
        let word = self.step_word(mode, set.at_begin, bits::only_word(&set.words), byte);
        bits::put_word(&mut set.words, word);
        set.at_begin = false;
        meter.add_built(1);
    }

    // The word after one more byte.
    #[inline(always)]
    pub(super) fn step_word(&self, mode: Mode, at_begin: bool, from: u64, byte: u8) -> u64
        requires one { HasOneWord (expression_of self.now) }
        requires small { (q : ℕ) → InWord from q → q < positions (expression_of self.now) }
        ensures { IsNext (part_of (expression_of self.now) 0) mode at_begin (InWord from) byte
            (InWord result) }
    {
        let first = self.first_word(mode, at_begin);
        self.with_followers(first, from) & bits::only_word(self.taking(byte))
    }

    // The one word of the positions that a stretch of the mode can begin with at the line's first
    // place, or at any other.
    #[inline(always)]
    fn first_word(&self, mode: Mode, at_begin: bool) -> u64
        requires { HasOneWord (expression_of self.now) }
        ensures { (q : ℕ) →
            InWord result q ↔
            (MayBegin mode at_begin × (part_of (expression_of self.now) 0).first at_begin q) }
    {
        if !mode.may_begin(at_begin) {
            return 0;
        }
        bits::only_word(self.beginning(at_begin))
    }

    // The word of the positions that can come directly after those of `from`.
    #[inline(always)]
    fn with_followers(&self, word: u64, from: u64) -> u64
        requires one { HasOneWord (expression_of self.now) }
        requires small { (q : ℕ) → InWord from q → q < positions (expression_of self.now) }
        ensures { (q : ℕ) →
            InWord result q ↔
            (InWord word q ⊎
            ((p : ℕ) × InWord from p × (part_of (expression_of self.now) 0).follow p q)) }
    {
        let mut next = word;
        let mut left = from;
        'bits: while left != 0 {
            let p = bits::take_lowest(&mut left);
            next |= bits::only_word(self.following(p));
        }
        next
    }
}
