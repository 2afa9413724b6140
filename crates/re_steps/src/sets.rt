//! Sets of positions on their way over a line.
ghost use Rattle.std.specs.Prelude.{◌≡◌, ◌<◌, ◌≤◌, [], IfOk, IfErr, length};
ghost use Rattle.re_trees.specs.Working.Trees.{expression_of};
ghost use Rattle.re_auto.specs.declared.build.BuildFault.TheVariants.{Memory};
ghost use Rattle.re_auto.specs.declared.mode.Mode.TheVariants.{Search, Whole};
ghost use Rattle.re_auto.specs.Working.StateSets.{IsMadeFor, IsNextSet};
ghost use Rattle.{re_meter.specs.Meters.many_built, re_steps.specs.Working.Simulations.AreSetsFor};
ghost use Rattle.re_steps.specs.Working.Stages.{Cache, Searches, FinishesFrom, GoesFrom};

use re_auto::{Automaton, BuildFault, Meter, Mode, StateSet};
use std::alloc::Global;
use std::mem;

/// A set of positions on its way over a line, and a spare one for the next step.
#[derive(Drop)]
pub struct SetPair {
    current: StateSet,
    spare: StateSet,
}

impl SetPair {
    /// Two sets for this automaton. The only error is `Memory`.
    pub fn new(alloc: Global, automaton: &Automaton) -> Result<SetPair, BuildFault>
        ensures made { IfOk result (AreSetsFor (expression_of automaton.now)) }
        ensures refused { IfErr result (λ fault. fault ≡ Memory) }
    {
        let current = StateSet::blank(alloc, automaton)?;
        let spare = StateSet::blank(alloc, automaton)?;
        Ok(SetPair { current, spare })
    }

    /// Whether the line is matched: some stretch of it in mode `Search`, all of it in mode `Whole`.
    /// It ends once that is known. In mode `Search` it goes over many bytes at once that no stretch
    /// can begin with while none is on its way; each counts as a step.
    pub fn search(
        &mut self,
        automaton: &Automaton,
        mode: Mode,
        line: &[u8],
        meter: &mut Meter,
    ) -> bool
        requires made { AreSetsFor (expression_of automaton.now) self.old }
        ensures made { AreSetsFor (expression_of automaton.now) self.new }
        ensures searches { (cache : Cache) → cache.entries ≡ [] →
            Searches (expression_of automaton.now) mode line.now cache cache meter.old meter.new
            result }
    {
        automaton.start(&mut self.current);
        self.rest(automaton, mode, line, 0, meter)
    }

    /// The same from a place where the search has this set.
    pub fn search_from(
        &mut self,
        automaton: &Automaton,
        mode: Mode,
        set: &StateSet,
        line: &[u8],
        from: usize,
        meter: &mut Meter,
    ) -> bool
        requires made { AreSetsFor (expression_of automaton.now) self.old }
        requires set { IsMadeFor (expression_of automaton.now) set.now }
        requires within { from ≤ length line.now }
        ensures made { AreSetsFor (expression_of automaton.now) self.new }
        ensures finishes { FinishesFrom (expression_of automaton.now) mode line.now from set.now
            meter.old meter.new result }
    {
        self.current.copy_from(set);
        self.rest(automaton, mode, line, from, meter)
    }

    // The rest of a search, from a place on. Each mode has a loop of its own, since one for both
    // takes more instructions a byte.
    #[inline(always)]
    fn rest(
        &mut self,
        automaton: &Automaton,
        mode: Mode,
        line: &[u8],
        from: usize,
        meter: &mut Meter,
    ) -> bool
        requires made { AreSetsFor (expression_of automaton.now) self.old }
        requires within { from ≤ length line.now }
        ensures made { AreSetsFor (expression_of automaton.now) self.new }
        ensures finishes { FinishesFrom (expression_of automaton.now) mode line.now from
            self.old.current meter.old meter.new result }
    {
        match mode {
            Mode::Search => self.rest_stands(automaton, line, from, meter),
            Mode::Whole => self.rest_is_line(automaton, line, from, meter),
        }
    }

    // The rest of the search for some matched stretch, from a place on.
    fn rest_stands(
        &mut self,
        automaton: &Automaton,
        line: &[u8],
        from: usize,
        meter: &mut Meter,
    ) -> bool
        requires made { AreSetsFor (expression_of automaton.now) self.old }
        requires within { from ≤ length line.now }
        ensures made { AreSetsFor (expression_of automaton.now) self.new }
        ensures finishes { FinishesFrom (expression_of automaton.now) Search line.now from
            self.old.current meter.old meter.new result }
    {
        let mut place = from;
        'places: while place < line.len() {
            if automaton.accepts(Mode::Search, &self.current, false) {
                return true;
            }
            place = self.pass(automaton, line, place, meter);
        }
        automaton.accepts(Mode::Search, &self.current, true)
    }

    // The rest of the search for the whole line, from a place on.
    fn rest_is_line(
        &mut self,
        automaton: &Automaton,
        line: &[u8],
        from: usize,
        meter: &mut Meter,
    ) -> bool
        requires made { AreSetsFor (expression_of automaton.now) self.old }
        requires within { from ≤ length line.now }
        ensures made { AreSetsFor (expression_of automaton.now) self.new }
        ensures finishes { FinishesFrom (expression_of automaton.now) Whole line.now from
            self.old.current meter.old meter.new result }
    {
        'places: for place in from..line.len() {
            if self.current.is_nowhere() {
                return false;
            }
            self.advance(automaton, Mode::Whole, line[place], meter);
        }
        automaton.accepts(Mode::Whole, &self.current, true)
    }

    // Goes over the byte at `place`, or, if no stretch is on its way, over the bytes from there on
    // that none can begin with. Returns the place after them.
    fn pass(&mut self, automaton: &Automaton, line: &[u8], place: usize, meter: &mut Meter) -> usize
        requires made { AreSetsFor (expression_of automaton.now) self.old }
        requires within { place < length line.now }
        ensures made { AreSetsFor (expression_of automaton.now) self.new }
        ensures on { (place < result) × (result ≤ length line.now) }
        ensures goes { GoesFrom (expression_of automaton.now) Search line.now place self.old.current
            meter.old result self.new.current meter.new }
    {
        if self.current.is_nowhere() && !automaton.begins(line[place]) {
            return automaton.next_beginning(line, place, meter);
        }
        self.advance(automaton, Mode::Search, line[place], meter);
        place + 1
    }

    // Replaces the set by the one after one more byte, which counts as one step.
    #[inline(always)]
    fn advance(&mut self, automaton: &Automaton, mode: Mode, byte: u8, meter: &mut Meter)
        requires made { AreSetsFor (expression_of automaton.now) self.old }
        ensures made { AreSetsFor (expression_of automaton.now) self.new }
        ensures next { IsNextSet (expression_of automaton.now) mode self.old.current byte
            self.new.current }
        ensures counted { meter.new ≡ many_built 1 meter.old }
    {
        if automaton.has_one_word() {
            automaton.advance_in_place(mode, &mut self.current, byte, meter);
            return;
        }
        self.advance_in_spare(automaton, mode, byte, meter);
    }

    // The same by way of the spare set. It is a function of its own, since it would cost the loops
    // registers.
    #[inline(never)]
    fn advance_in_spare(&mut self, automaton: &Automaton, mode: Mode, byte: u8, meter: &mut Meter)
        requires made { AreSetsFor (expression_of automaton.now) self.old }
        ensures made { AreSetsFor (expression_of automaton.now) self.new }
        ensures next { IsNextSet (expression_of automaton.now) mode self.old.current byte
            self.new.current }
        ensures counted { meter.new ≡ many_built 1 meter.old }
    {
        automaton.advance(mode, &self.current, byte, &mut self.spare, meter);
        mem::swap(&mut self.current, &mut self.spare);
    }
}
