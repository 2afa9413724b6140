//! A pass back over a line, by steps that are kept.
ghost use Rattle.std.specs.Prelude.{◌≡◌, ℕ, ◌+◌, ◌-◌, ◌^◌, ◌<◌, ◌≤◌, Bool, false, List, suc, IfOk};
ghost use Rattle.std.specs.Prelude.{length, max};
ghost use Rattle.re_trees.specs.{Holds.positions, Working.Trees.expression_of};
ghost use Rattle.re_auto.specs.Working.Positions.{part_of, is_end};
ghost use Rattle.re_ends.specs.Working.{GreatestEnds.IsBorder, KeptSteps.{AreStepsFor, IsRowIn}};
ghost use Rattle.re_ends.specs.Working.EndTables.{IsPassFor, IsAtRow, IsAt, Adds, AddsFrom};

use crate::groups::{Groups, first_in};
use crate::kept::KeptSteps;
use crate::list::EndList;
use re_auto::Automaton;
use std::alloc::{AllocError, Global};

/// What a pass needs: memory for what is kept, the automaton and the line.
#[derive(Clone, Copy)]
pub struct Asked<'a, 'l> {
    /// Where memory for what is kept comes from.
    pub alloc: Global,
    /// The automaton.
    pub automaton: &'a Automaton,
    /// The line.
    pub line: &'l [u8],
}

/// A place on a line, and the row of the groups there.
#[derive(Clone, Copy, Drop)]
pub struct Spot {
    /// The place.
    pub place: usize,
    /// The row.
    pub row: usize,
}

/// For an automaton, the greatest ends of positions at a place of a line on the way back over it:
/// groups, and their ends. Steps between groups are kept.
#[derive(Drop)]
pub struct Pass {
    steps: KeptSteps,
    groups: Groups,
    list: EndList,
}

impl Pass {
    /// A pass for this automaton. No later call fails: where memory is refused, steps are lost.
    pub fn new(alloc: Global, automaton: &Automaton) -> Result<Pass, AllocError>
        ensures { IfOk result (IsPassFor (expression_of automaton.now)) }
    {
        let groups = Groups::new(alloc, automaton)?;
        let list = EndList::new(alloc, automaton.size())?;
        let steps = KeptSteps::new(alloc, automaton)?;
        Ok(Pass {
            steps,
            groups,
            list,
        })
    }

    /// Begins at a place that no match goes over.
    pub fn begin(&mut self, asked: &Asked, end: usize) -> Spot
        requires made { IsPassFor (expression_of asked.now.automaton.now) self.old }
        requires border { IsBorder (expression_of asked.now.automaton.now) asked.now.line.now end }
        ensures at { IsAt asked.now self.new result }
        ensures place { result.place ≡ end }
    {
        self.list.clear();
        let row = self.steps.first_row(end == asked.line.len());
        Spot { place: end, row }
    }

    /// Goes back to the place `stop`, from which on `ends` has a number for each place. They get
    /// the greatest ends, where these are greater. `built` counts the steps that are not kept.
    pub fn go_back(
        &mut self,
        asked: &Asked,
        from: Spot,
        stop: usize,
        ends: &mut [usize],
        built: &mut u64,
    ) -> Spot
        requires at { IsAt asked.now self.old from }
        requires stop { stop ≤ from.place }
        requires room { from.place ≤ stop + length ends.old }
        ensures at { IsAt asked.now self.new result }
        ensures place { result.place ≡ stop }
        ensures added { AddsFrom (expression_of asked.now.automaton.now) asked.now.line.now stop
            from.place stop ends.old ends.new }
        ensures counted { built.new + stop ≤ built.old + from.place }
    {
        let mut spot = from;
        'places: while spot.place > stop {
            spot = self.onward(asked, spot, stop, ends, built);
        }
        spot
    }

    // Goes back over bytes whose steps are kept, and over one byte more.
    #[inline(never)]
    fn onward(
        &mut self,
        asked: &Asked,
        from: Spot,
        stop: usize,
        ends: &mut [usize],
        built: &mut u64,
    ) -> Spot
        requires at { IsAt asked.now self.old from }
        requires some { stop < from.place }
        requires room { from.place ≤ stop + length ends.old }
        ensures at { IsAt asked.now self.new result }
        ensures on { result.place < from.place }
        ensures stop { stop ≤ result.place }
        ensures added { Adds asked.now stop from.place result.place ends.old ends.new }
        ensures counted { built.new + result.place ≤ built.old + from.place }
    {
        let walked = walk_rows(&self.steps, &mut self.list, asked, from, stop, ends);
        if walked.place == 0 {
            self.mark(asked, walked, stop, ends);
            return walked;
        }
        if walked.place == stop {
            return walked;
        }
        let row = self.step(asked, walked, built);
        let next = Spot {
            place: walked.place - 1,
            row,
        };
        self.mark(asked, next, stop, ends);
        next
    }

    // Steps back over the byte before the place, whose step is not kept. Returns the row of the
    // groups there.
    #[inline(never)]
    fn step(&mut self, asked: &Asked, from: Spot, built: &mut u64) -> usize
        requires at { IsAt asked.now self.old from }
        requires some { 0 < from.place }
        ensures at { IsAt asked.now self.new (record { place = from.place - 1; row = result }) }
        ensures counted { built.new ≤ built.old + 1 }
    {
        let byte = asked.line[from.place - 1];
        let at_end = from.place == asked.line.len();
        *built = built.saturating_add(1);
        let after = self.steps.row(from.row);
        self.groups.step(asked.automaton, after, byte, at_end);
        let count = self.groups.count;
        self.list.pick(&self.groups.runs, count, from.place);
        let Some(to) = self
            .steps
            .row_of(asked.alloc, asked.automaton, &self.groups)
        else {
            return self.steps.begin_anew(asked.automaton, &self.groups.row);
        };
        self.steps.put(
            asked.alloc,
            asked.automaton,
            from.row,
            byte,
            to,
            &self.groups,
        );
        to
    }

    // Gives the place its greatest end.
    fn mark(&self, asked: &Asked, at: Spot, stop: usize, ends: &mut [usize])
        requires at { IsAt asked.now self.now at }
        requires within { at.place < length asked.now.line.now }
        requires stop { stop ≤ at.place }
        requires room { at.place < stop + length ends.old }
        ensures added { Adds asked.now stop (suc at.place) at.place ends.old ends.new }
    {
        let beginning = asked.automaton.beginning(at.place == 0);
        let first = first_in(self.steps.row(at.row), beginning);
        self.list.put_end(first, ends, at.place - stop);
    }
}

// Goes back over bytes whose steps are kept, down to `stop`. If it comes to the first place, that
// has no end yet.
#[inline(always)]
fn walk_rows(
    steps: &KeptSteps,
    list: &mut EndList,
    asked: &Asked,
    from: Spot,
    stop: usize,
    ends: &mut [usize],
) -> Spot
    requires sound { AreStepsFor (expression_of asked.now.automaton.now) steps.now }
    requires at { IsAtRow (expression_of asked.now.automaton.now) asked.now.line.now steps.now
        list.old from.place from.row }
    requires some { stop < from.place }
    requires room { from.place ≤ stop + length ends.old }
    requires most { positions (expression_of asked.now.automaton.now) < list.old.most }
    ensures at { IsAtRow (expression_of asked.now.automaton.now) asked.now.line.now steps.now
        list.new result.place result.row }
    ensures on { result.place ≤ from.place }
    ensures stop { stop ≤ result.place }
    ensures len { length ends.new ≡ length ends.old }
    ensures most { list.new.most ≡ list.old.most }
    ensures added { Adds asked.now stop from.place (max result.place 1) ends.old ends.new }
{
    let line = asked.line;
    let mut row = from.row;
    let mut place = from.place;
    'places: while place > stop {
        let step = steps.step(row, line[place - 1]);
        if !steps.apply(step, list, place) {
            return Spot { place, row };
        }
        row = step.row as usize;
        place -= 1;
        if place == 0 {
            return Spot { place, row };
        }
        list.put_end(step.inside, ends, place - stop);
    }
    Spot { place, row }
}
