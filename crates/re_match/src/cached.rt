//! Search by stepping an automaton over the line, with a cache of the steps between sets of
//! positions.
ghost use Rattle.std.specs.Prelude.{◌≡◌, ℕ, ◌+◌, ◌-◌, ◌<◌, ◌≤◌, ◌↔◌, [], ◌∷◌, true, false, IsTrue};
ghost use Rattle.std.specs.Prelude.{IfOk, IfErr, IfSome, length, slice_index, vec_capacity, ◌⊎◌};
ghost use Rattle.std.specs.NonZero.{non_zero_usize_get};
ghost use Rattle.re_trees.specs.{Working.Trees.expression_of, Limits.most_positions, Holds.Matches};
ghost use Rattle.re_trees.specs.Holds.{positions};
ghost use Rattle.re_auto.specs.{declared.build.BuildFault.TheVariants.Memory, Searches.FindsPart};
ghost use Rattle.re_auto.specs.Working.{Tables.IsRefused, StateSets.IsMadeFor};
ghost use Rattle.re_match.specs.Working.CachedMatchers.{no_cache, SameCached, AnswersLine};
ghost use Rattle.re_match.specs.Working.Sweeps.{LooksOver, StopsAt, CountsSweep};
ghost use Rattle.{re_match.specs.Working.Aheads.AreEdgesFor, re_needle.specs.Working.Needles.IsSettled};
ghost use Rattle.re_match.specs.Working.Aheads.{CountsAhead, IsAhead, IsSaid, IsWindowOf, past};
ghost use Rattle.re_meter.specs.Meters.{AddsAtMost, AddsJust, many_built};
ghost use Rattle.re_steps.specs.Working.{Simulations.AreSetsFor, Walks.{IsAt, IsReported}};
ghost use Rattle.re_steps.specs.Working.Stages.{Searches, IsReadied, FinishesFrom, mode_for, Cache};
ghost use Rattle.re_steps.specs.Working.{Stages.Stage, Rows.{Lasts, IsKnownFor, IsReady, IsRow}};
ghost use Rattle.re_ends.specs.Working.GreatestEnds.{AddsEnds, FoundPast, FindsIn, IsBorder};
ghost use Rattle.re_ends.specs.Working.EndTables.{AreEndsFor};
ghost use Rattle.re_runs.specs.Working.Blocks.{PassesUnmatched, IsBlock};

use crate::ahead::Ahead;
use crate::line_match::LineMatch;
use crate::prefilter::Prefilter;
use crate::sweeps::{Stop, Sweep, Sweeps, next_by_sweeps};
use crate::window::Edges;
use re_auto::{Automaton, BuildFault, Meter, Mode, StateSet};
use re_ends::{Asked, EndTable, Window};
use re_runs::line_end;
use re_steps::{LineSearch, Outcome, SetPair, Spot, StepTable};
use re_trees::{Span, Tree};
use std::alloc::Global;
use std::marker::Model;
use std::num::NonZeroUsize;

/// A matcher for an expression that keeps the steps that it worked out. Contracts see it as the
/// tree, whether the whole line has to be matched, the entries of its cache, and how many entries
/// that may have. A line that its [`Prefilter`] settles takes no step. The cache's table is made for
/// the first line that takes steps.
#[derive(Drop)]
pub struct Cached {
    automaton: Automaton,
    whole: bool,
    prefilter: Prefilter,
    edges: Edges,
    sets: SetPair,
    back: EndTable,
    table: Option<StepTable>,
    most: NonZeroUsize,
    alloc: Global,
}

impl Model for Cached {
    ghost use Rattle.std.specs.Prelude.{IfSome};
    ghost use Rattle.std.specs.NonZero.{non_zero_usize_get};
    ghost use Rattle.std.specs.Coded.{codes};
    ghost use Rattle.re_trees.specs.Working.Trees.{expression_of};
    ghost use Rattle.re_trees.specs.contracts.tree.Tree as e;
    ghost use Rattle.re_auto.specs.contracts.step.state_set.StateSet as s;
    ghost use Rattle.re_match.specs.Working.Prefilters.{IsPrefilterFor};
    ghost use Rattle.re_steps.specs.Working.Simulations.{AreSetsFor};
    ghost use Rattle.re_ends.specs.Working.EndTables.{AreEndsFor};
    ghost use Rattle.re_match.specs.Working.Aheads.{AreEdgesFor};
    ghost use Rattle.re_match.specs.Working.CachedMatchers.{CachedMatcher, IsTableFor, cache_in};

    ghost Value = { CachedMatcher };

    ghost coded = { Prim.hlevel (codes, e.the_row.coded, s.the_row.coded) };

    ghost view = { λ c.
        record {
          tree = c.automaton;
          whole = c.whole;
          cache = cache_in c.table;
          most = non_zero_usize_get c.most;
        } };

    ghost invariant = { λ c. AreSetsFor (expression_of c.automaton) c.sets ×
        AreEdgesFor (expression_of c.automaton) c.edges
        × IsPrefilterFor (expression_of c.automaton) c.prefilter
        × AreEndsFor (expression_of c.automaton) c.back
        × IfSome c.table
        (IsTableFor (expression_of c.automaton) c.whole (non_zero_usize_get c.most)) };
}

impl Cached {
    /// A matcher for the tree, with an empty cache that gets at most `most` entries. All that searches
    /// need is allocated here, but for the cache's table. The errors are `TooLarge`, exactly if the
    /// expression has more than 4,096 positions once its intervals are written out, and `Memory`.
    pub fn new(
        alloc: Global,
        tree: Tree,
        whole: bool,
        most: NonZeroUsize,
    ) -> Result<Cached, BuildFault>
        ensures made { IfOk result (λ c. c ≡ record {
          tree = tree;
          whole = whole;
          cache = no_cache;
          most = non_zero_usize_get most;
        }) }
        ensures few { IfOk result (λ _. positions (expression_of tree) ≤ most_positions) }
        ensures refused { IfErr result (IsRefused (positions (expression_of tree))) }
    {
        let prefilter = Prefilter::of(alloc, &tree);
        let automaton = match Automaton::build(alloc, tree) {
            Ok(automaton) => automaton,
            Err(fault) => {
                drop(prefilter);
                return Err(fault);
            }
        };
        let Ok(prefilter) = prefilter else {
            drop(automaton);
            return Err(BuildFault::Memory);
        };
        let (sets, back) = match sets_for(alloc, &automaton) {
            Ok(pairs) => pairs,
            Err(fault) => {
                drop(automaton);
                drop(prefilter);
                return Err(fault);
            }
        };
        let edges = Edges::of(&automaton);
        Ok(Cached {
            automaton,
            whole,
            prefilter,
            edges,
            sets,
            back,
            table: None,
            most,
            alloc,
        })
    }

    /// How many entries the cache has.
    pub fn cached(&self) -> usize
        ensures held { result ≡ length self.now.cache.entries }
        ensures few { result ≤ self.now.most }
    {
        match &self.table {
            Some(table) => table.pairs.held(),
            None => 0,
        }
    }

    // The mode in which lines are searched.
    #[inline(always)]
    fn mode(&self) -> Mode
        ensures { result ≡ mode_for self.now.whole }
    {
        if self.whole {
            return Mode::Whole;
        }
        Mode::Search
    }

    // What one look over the line says of it.
    #[inline(always)]
    fn settled(&self, line: &[u8], meter: &mut Meter) -> Option<bool>
        ensures settled { IfSome result
            (λ reported. IsSettled (expression_of self.now.tree) self.now.whole line.now reported) }
        ensures looked { LooksOver (expression_of self.now.tree) line.now result meter.old meter.new }
    {
        self.prefilter.settled(line, self.whole, meter)
    }

    // Makes the cache's table, if there is none and memory for it is granted.
    #[inline(always)]
    fn ready_table(&mut self)
        ensures readied { IsReadied self.old.cache self.new.cache }
        ensures same { SameCached self.old self.new }
    {
        if self.table.is_some() {
            return;
        }
        self.make_table();
    }

    // Makes an empty table, if memory for it is granted. It is a function of its own, since it would
    // cost searches registers.
    #[inline(never)]
    fn make_table(&mut self)
        requires { self.old.cache.entries ≡ [] }
        ensures empty { self.new.cache.entries ≡ [] }
        ensures same { SameCached self.old self.new }
    {
        let Ok(table) = StepTable::new(self.alloc, &self.automaton, self.most) else {
            return;
        };
        self.table = Some(table);
    }

    // Whether the line is matched, by steps alone.
    #[inline(always)]
    fn searched(&mut self, line: &[u8], meter: &mut Meter) -> bool
        ensures searches { Searches (expression_of self.old.tree) (mode_for self.old.whole) line.now
            self.old.cache self.new.cache meter.old meter.new result }
        ensures same { SameCached self.old self.new }
    {
        self.ready_table();
        let mode = self.mode();
        let Some(table) = &mut self.table else {
            return self.sets.search(&self.automaton, mode, line, meter);
        };
        let asked = LineSearch {
            alloc: self.alloc,
            automaton: &self.automaton,
            mode,
            line,
        };
        if !table.is_ready(&asked) {
            return self.sets.search(&self.automaton, mode, line, meter);
        }
        if table.is_matched_at_once(&asked) {
            return true;
        }
        let from = table.first_spot();
        search_on(table, &mut self.sets, &asked, from, meter)
    }

    // Passes lines of a block by kept steps. The first that ends after `most` bytes, or in which
    // something else comes up, is decided.
    #[inline(always)]
    fn walk(&mut self, block: &[u8], most: usize, meter: &mut Meter) -> Sweep
        requires block { IsBlock block.now }
        requires search { self.old.whole ≡ false }
        ensures passes { PassesUnmatched (expression_of self.old.tree) self.old.whole block.now
            result.start }
        ensures stops { StopsAt (expression_of self.old.tree) self.old.whole block.now result }
        ensures same { SameCached self.old self.new }
        ensures steps { CountsSweep result meter.old meter.new }
    {
        let Some(table) = &mut self.table else {
            return Sweep::to(0, 0, Stop::Unseen);
        };
        if block.is_empty() {
            return Sweep::to(0, 0, Stop::Unseen);
        }
        if !table.walks() {
            return Sweep::to(0, 0, Stop::Unseen);
        }
        let asked = LineSearch {
            alloc: self.alloc,
            automaton: &self.automaton,
            mode: Mode::Search,
            line: block,
        };
        if table.is_matched_at_once(&asked) {
            return Sweep::to(0, 0, Stop::Unseen);
        }
        let lines = table.walk_lines(&asked, most.min(block.len() - 1), meter);
        let Some(end) = line_end(block, lines.place) else {
            unreachable!();
        };
        let asked = LineSearch {
            line: &block[lines.start..end],
            ..asked
        };
        let from = Spot {
            place: lines.place - lines.start,
            row: lines.row,
        };
        let answer = search_on(table, &mut self.sets, &asked, from, meter);
        Sweep::to(lines.start, end + 1, Stop::Decided(answer))
    }

    // Where the next match of the line is.
    #[inline(always)]
    fn next_match(&self, line: &[u8], from: usize, meter: &mut Meter) -> Ahead
        requires { from < length line.now }
        ensures { IsSaid (expression_of self.now.tree) line.now from meter.old meter.new result }
    {
        self.prefilter.next_match(&self.edges, line, from, meter)
    }

    // The next part in the window.
    fn find_in(&mut self, line: &[u8], window: Window, meter: &mut Meter) -> Option<Span>
        requires low { window.start ≤ window.end }
        requires border { IsBorder (expression_of self.old.tree) line.now window.end }
        ensures found { FindsIn (expression_of self.old.tree) line.now window.start window.end result }
        ensures same { self.new ≡ self.old }
        ensures steps { AddsJust (window.end - window.start) 0 meter.old meter.new }
    {
        let asked = Asked {
            alloc: self.alloc,
            automaton: &self.automaton,
            line,
        };
        self.back.find(&asked, window, meter)
    }
}

// The sets and the ends for the automaton. The only error is `Memory`.
fn sets_for(alloc: Global, automaton: &Automaton) -> Result<(SetPair, EndTable), BuildFault>
    ensures made { IfOk result
        (λ pair. AreSetsFor (expression_of automaton.now) pair.0
        × AreEndsFor (expression_of automaton.now) pair.1) }
    ensures refused { IfErr result (λ fault. fault ≡ Memory) }
{
    let sets = SetPair::new(alloc, automaton)?;
    let Ok(back) = EndTable::new(alloc, automaton) else {
        return Err(BuildFault::Memory);
    };
    Ok((sets, back))
}

// Where a search goes on after the window: no match begins at the byte that ends it.
fn place_after(line: &[u8], window: Window) -> usize
    requires { window.end ≤ length line.now }
    ensures { result ≡ past line.now window.end }
{
    (window.end + 1).min(line.len())
}

// The rest of a search, from a spot on.
#[inline(always)]
fn search_on(
    table: &mut StepTable,
    sets: &mut SetPair,
    asked: &LineSearch,
    from: Spot,
    meter: &mut Meter,
) -> bool
    requires ready { IsReady asked.now table.old }
    requires within { from.place ≤ length asked.now.line.now }
    requires row { IsRow table.old from.row }
    requires made { AreSetsFor (expression_of asked.now.automaton.now) sets.old }
    ensures made { AreSetsFor (expression_of asked.now.automaton.now) sets.new }
    ensures lasts { Lasts asked.now table.old table.new }
    ensures known { IsKnownFor (expression_of asked.now.automaton.now) asked.now.mode table.new }
    ensures finishes { (first : Stage) →
        IsAt asked.now first table.old meter.old from.place from.row →
        IsReported asked.now first table.new meter.new result }
{
    match table.search_from(asked, from, meter) {
        Outcome::Reported(reported) => reported,
        Outcome::GaveUp(place) => {
            table.give_up();
            finish(sets, asked, &table.scratch, place, meter)
        }
    }
}

// The rest of a search, by steps alone, from a place where the search has this set.
#[inline(never)]
fn finish(
    sets: &mut SetPair,
    asked: &LineSearch,
    set: &StateSet,
    from: usize,
    meter: &mut Meter,
) -> bool
    requires made { AreSetsFor (expression_of asked.now.automaton.now) sets.old }
    requires set { IsMadeFor (expression_of asked.now.automaton.now) set.now }
    requires within { from ≤ length asked.now.line.now }
    ensures made { AreSetsFor (expression_of asked.now.automaton.now) sets.new }
    ensures finishes { FinishesFrom (expression_of asked.now.automaton.now) asked.now.mode
        asked.now.line.now from set.now meter.old meter.new result }
{
    sets.search_from(asked.automaton, asked.mode, set, asked.line, from, meter)
}

impl LineMatch for Cached {
    ghost use Rattle.re_trees.specs.Working.Trees.{expression_of};

    ghost expression = { λ c. expression_of c.tree };

    ghost whole = { λ c. c.whole };

    ghost room = { λ c. c.most };

    #[inline(always)]
    fn is_match(&mut self, line: &[u8], meter: &mut Meter) -> bool
        ensures reported { IsTrue result ↔
            Matches (expression_of self.old.tree) line.now self.old.whole }
        ensures steps { AddsAtMost (length line.now + 1) meter.old meter.new }
        ensures counted { AnswersLine (expression_of self.old.tree) self.old.whole line.now
            self.old.cache self.new.cache meter.old meter.new result }
        ensures same { SameCached self.old self.new }
    {
        if let Some(reported) = self.settled(line, meter) {
            return reported;
        }
        self.searched(line, meter)
    }

    fn find(&mut self, line: &[u8], from: usize, meter: &mut Meter) -> Option<Span>
        requires { from ≤ length line.now }
        ensures reported { FindsPart (expression_of self.old.tree ∷ []) line.now false from result }
        ensures steps { AddsAtMost (length line.now - from + 1) meter.old meter.new }
        ensures same { self.new ≡ self.old }
    {
        let mut place = from;
        'windows: while place < line.len() {
            let window = match self.next_match(line, place, meter) {
                Ahead::Part(part) => return Some(part),
                Ahead::In(window) => window,
                Ahead::Nothing => return None,
            };
            if let Some(part) = self.find_in(line, window, meter) {
                return Some(part);
            }
            place = place_after(line, window);
        }
        None
    }

    fn next_window(&mut self, line: &[u8], from: usize, meter: &mut Meter) -> Ahead
        requires { from < length line.now }
        ensures reported { IsAhead (expression_of self.old.tree) line.now from result }
        ensures same { self.new ≡ self.old }
        ensures steps { CountsAhead line.now from meter.old meter.new result }
    {
        self.next_match(line, from, meter)
    }

    fn add_ends(
        &mut self,
        line: &[u8],
        window: Window,
        ends: &mut [usize],
        spare: &mut Vec<usize>,
        meter: &mut Meter,
    )
        requires window { IsWindowOf (expression_of self.old.tree) line.now window }
        requires ends { length ends.old ≡ window.end - window.start }
        ensures added { AddsEnds
            (λ i m. FoundPast (expression_of self.old.tree ∷ []) line.now false (window.start + i) m)
            ends.old ends.old ends.new }
        ensures samespare { vec_capacity spare.old ≤ vec_capacity spare.new }
        ensures same { self.new ≡ self.old }
        ensures steps { AddsJust (window.end - window.start) 0 meter.old meter.new }
    {
        let asked = Asked {
            alloc: self.alloc,
            automaton: &self.automaton,
            line,
        };
        self.back.add_ends(&asked, window, ends, meter);
    }

    fn next_matched(&mut self, block: &[u8], meter: &mut Meter) -> Option<Span> {
        self.prefilter.backoff.begin();
        next_by_sweeps(self, block, meter)
    }
}

impl Sweeps for Cached {
    ghost use Rattle.re_trees.specs.Working.Trees.{expression_of};

    ghost expression = { λ c. expression_of c.tree };

    ghost whole = { λ c. c.whole };

    ghost room = { λ c. c.most };

    #[inline(always)]
    fn sweep(&mut self, block: &[u8], meter: &mut Meter) -> Sweep {
        let most = self.prefilter.walk(self.whole);
        if most > 0 {
            let sweep = self.walk(block, most, meter);
            self.prefilter.backoff.note_walk(sweep.reached);
            return sweep;
        }
        self.prefilter.sweep(block, self.whole, meter)
    }

    #[inline(always)]
    fn search_after(&mut self, stop: Stop, line: &[u8], meter: &mut Meter) -> bool {
        match stop {
            Stop::Unseen => self.is_match(line, meter),
            Stop::Seen => self.searched(line, meter),
            Stop::Decided(answer) => answer,
        }
    }
}
