//! Sets of positions while they are stepped over a line.
ghost use Rattle.std.specs.Prelude.{◌≡◌, IsTrue, ◌↔◌, IfOk, IfErr};
ghost use Rattle.re_trees.specs.Working.Trees.{expression_of};
ghost use Rattle.re_auto.specs.declared.build.BuildFault.TheVariants.{Memory};
ghost use Rattle.re_auto.specs.Working.StateSets.{IsMadeFor, IsAlike, IsSame, IsNowhere};

use crate::bits;
use crate::build::BuildFault;
use crate::step::automaton::Automaton;
use std::alloc::Global;

// The number of positions from which a set is large.
const LARGE: u32 = 128;

/// A set of positions of an automaton, and a mark 'at the line's first place'. `StandsAt` in
/// `specs/Working/StateSets.antt` says what it means on a line and at a place.
#[derive(PartialEq, Eq, Hash, Drop)]
pub struct StateSet {
    pub(crate) words: Vec<u64>,
    pub(crate) at_begin: bool,
}

impl StateSet {
    /// A set without positions and without the mark, for this automaton. Only this call allocates
    /// memory, and its only error is `Memory`.
    pub fn blank(alloc: Global, automaton: &Automaton) -> Result<StateSet, BuildFault>
        ensures made { IfOk result (IsMadeFor (expression_of automaton.now)) }
        ensures nowhere { IfOk result IsNowhere }
        ensures refused { IfErr result (λ fault. fault ≡ Memory) }
    {
        match automaton.blank_words(alloc) {
            Ok(words) => Ok(StateSet {
                words,
                at_begin: false,
            }),
            Err(_) => Err(BuildFault::Memory),
        }
    }

    /// Makes this set equal to `from`, without allocating memory. Both were made for the same
    /// automaton.
    pub fn copy_from(&mut self, from: &StateSet)
        requires alike { IsAlike self.old from.now }
        ensures { IsSame self.new from.now }
    {
        self.words.copy_from_slice(&from.words);
        self.at_begin = from.at_begin;
    }

    /// Whether the set has no position and no mark: no stretch is on its way.
    pub fn is_nowhere(&self) -> bool
        ensures { IsTrue result ↔ IsNowhere self.now }
    {
        let clear = bits::is_clear(&self.words);
        !self.at_begin & clear
    }

    /// Whether the set has so many positions that a step from it takes longer than storing the
    /// step's result. No contract depends on it.
    pub fn is_large(&self) -> bool {
        let mut held: u32 = 0;
        for word in self.words.iter() {
            held = held.saturating_add(word.count_ones());
        }
        held >= LARGE
    }
}
