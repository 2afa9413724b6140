//! Searches by the pairs that are held.
ghost use Rattle.std.specs.Prelude.{◌≡◌, ℕ, ◌+◌, ◌-◌, ◌*◌, ◌<◌, ◌≤◌, true, false, Some, IsTrue};
ghost use Rattle.std.specs.Prelude.{IfSome, IfNone, length, slice_get, slice_index};
ghost use Rattle.re_auto.specs.{Working.StateSets.IsNextSet, declared.mode.Mode.TheVariants.Search};
ghost use Rattle.re_meter.specs.Meters.{Steps, many_built, many_reused};
ghost use Rattle.re_steps.specs.Working.Stages.{Stage, EndsInside, HoldsNoOther, IsPlain};
ghost use Rattle.re_steps.specs.Working.{Pairs.unknown, Rows.{limit, cache_of, rows_of, IsRow}};
ghost use Rattle.re_steps.specs.Working.Rows.{IsRightFor, expression_in, Keeps, walked, row_under};
ghost use Rattle.re_steps.specs.Working.Rows.{IsReady, IsRowOf, Lasts, cell_at, IsKnownCell};
ghost use Rattle.re_steps.specs.Working.Walks.{Ends, LandsUnkept, Arrives, LeadsOn, LandsBy, IsAt};
ghost use Rattle.{re_steps.specs.Working.Walks.GoesOverLines, re_runs.specs.Working.Blocks.IsBlock};
ghost use Rattle.re_auto.specs.declared.step.state_set.StateSet.{StateSet as Set};

use crate::pairs::UNKNOWN;
use crate::table::{LIMIT, LineSearch, StepTable};
use re_auto::{Meter, Mode};

/// A place on a line, and the row of the set there.
#[derive(Clone, Copy, Drop)]
pub struct Spot {
    /// The place.
    pub place: usize,
    /// The row.
    pub row: usize,
}

/// Where a walk over lines ended.
#[derive(Clone, Copy, Drop)]
pub struct Lines {
    /// Where the line begins.
    pub start: usize,
    /// The place.
    pub place: usize,
    /// The row of the set there.
    pub row: usize,
}

/// Where a walk over held pairs ended, and the cell that stopped it.
#[derive(Clone, Copy, Drop)]
pub struct Walk {
    /// The place.
    pub place: usize,
    /// The row of the set there.
    pub row: usize,
    /// The cell for the byte there; unknown at the line's end.
    pub cell: u32,
}

/// The result of going on.
#[derive(Drop)]
pub enum Went {
    /// The search is at this spot.
    To(Spot),
    /// The answer is known.
    Reported(bool),
    /// The search is at this place, and the set there is not in the table.
    Alone(usize),
}

/// The result of a search: its answer, or the place where it gave up.
#[derive(Drop)]
pub enum Outcome {
    /// The answer.
    Reported(bool),
    /// The place.
    GaveUp(usize),
}

impl StepTable {
    /// Goes on from a spot to the line's end. It gives up after some byte if memory or room runs out, or
    /// keeping pairs doesn't pay. Then the scratch set is the one there, and the rows must not be used
    /// any more.
    pub fn search_from(&mut self, asked: &LineSearch, from: Spot, meter: &mut Meter) -> Outcome
        requires ready { IsReady asked.now self.old }
        requires within { from.place ≤ length asked.now.line.now }
        requires row { IsRow self.old from.row }
        ensures lasts { Lasts asked.now self.old self.new }
        ensures ends { Ends asked.now self.old meter.old from self.new meter.new result }
    {
        let mut spot = from;
        'places: while spot.place < asked.line.len() {
            match self.onward(asked, spot, meter) {
                Went::To(next) => spot = next,
                Went::Reported(reported) => return Outcome::Reported(reported),
                Went::Alone(place) => return Outcome::GaveUp(place),
            }
        }
        Outcome::Reported(self.mark(self.stride.number(spot.row)).at_end)
    }

    /// Whether it is worth while to go over lines by held pairs.
    #[inline(always)]
    pub fn walks(&self) -> bool
        ensures { IsTrue result → length self.now.marks.items ≡ 0 → ⊥ }
    {
        !self.marks.is_empty() && self.pace.walks()
    }

    /// The spot at a line's first place.
    #[inline(always)]
    pub fn first_spot(&self) -> Spot
        requires { self.now.stride ≤ 256 }
        ensures { result ≡ record { place = 0; row = 1 * self.now.stride } }
    {
        Spot {
            place: 0,
            row: self.stride.row(1),
        }
    }

    /// Goes over lines of a block whose pairs are held, none of which is matched, and over bytes of
    /// the line after them, which does not begin after the place `most` and its newline. Each byte that
    /// it goes over counts as one step.
    #[inline(never)]
    #[tactic(auto, using(crate::proofs::lemmas::WalkLaws::walked_is))]
    pub fn walk_lines(&mut self, asked: &LineSearch, most: usize, meter: &mut Meter) -> Lines
        requires ready { IsReady asked.now self.old }
        requires search { asked.now.mode ≡ Search }
        requires plain { (start : Set) → slice_get self.old.sets.keys 1 ≡ Some start →
            IsPlain (expression_in asked.now) asked.now.mode start }
        requires block { IsBlock asked.now.line.now }
        requires within { most < length asked.now.line.now }
        ensures ready { IsReady asked.now self.new }
        ensures most { self.new.pairs.most ≡ self.old.pairs.most }
        ensures goes { GoesOverLines asked.now self.new result }
        ensures counted { meter.new ≡ walked result.place meter.old }
    {
        let block = asked.line;
        let classes = self.classes.as_slice();
        let cells = self.pairs.cells();
        let marks = self.marks.as_slice();
        let stride = &self.stride;
        let first = stride.row(1);
        let mut lines = Lines {
            start: 0,
            place: 0,
            row: first,
        };
        'places: loop {
            let byte = block[lines.place];
            if byte == b'\n' {
                if lines.place >= most || marks[stride.number(lines.row)].at_end {
                    break;
                }
                lines = Lines {
                    start: lines.place + 1,
                    place: lines.place + 1,
                    row: first,
                };
                continue;
            }
            let cell = cell_in(cells, lines.row, classes[byte as usize] as usize);
            if cell >= LIMIT {
                break;
            }
            lines.row = cell as usize;
            lines.place += 1;
        }
        meter.add_reused_steps(lines.place as u64);
        self.pace.note_reused(lines.place);
        lines
    }

    /// Whether a matched stretch ends at the first place of the line, which is not its last.
    #[inline(always)]
    pub fn is_matched_at_once(&self, asked: &LineSearch) -> bool
        requires right { IsRightFor asked.now self.now }
        ensures yes { (start : Set) → slice_get self.now.sets.keys 1 ≡ Some start → IsTrue result →
            EndsInside (expression_in asked.now) asked.now.mode asked.now.line.now 0 start true }
        ensures no { (start : Set) → slice_get self.now.sets.keys 1 ≡ Some start → result ≡ false →
            0 < length asked.now.line.now → IsPlain (expression_in asked.now) asked.now.mode start }
    {
        if asked.line.is_empty() || asked.mode == Mode::Whole {
            return false;
        }
        self.mark(1).inside
    }

    // Goes on over held pairs, and over one byte more.
    fn onward(&mut self, asked: &LineSearch, spot: Spot, meter: &mut Meter) -> Went
        requires ready { IsReady asked.now self.old }
        requires within { spot.place < length asked.now.line.now }
        requires row { IsRow self.old spot.row }
        ensures lasts { Lasts asked.now self.old self.new }
        ensures arrives { Arrives asked.now self.old meter.old spot self.new meter.new result }
    {
        let floor = (asked.mode == Mode::Whole || self.pace.passes()) as u32;
        let walk = self.walk(asked, spot, floor);
        meter.add_reused_steps((walk.place - spot.place) as u64);
        self.pace.note_reused(walk.place - spot.place);
        if walk.place >= asked.line.len() {
            return Went::To(Spot {
                place: walk.place,
                row: walk.row,
            });
        }
        let byte = asked.line[walk.place];
        match self.step(asked, walk, byte, meter) {
            Some(cell) => self.arrive(asked, walk.place + 1, cell, meter),
            None => Went::Alone(walk.place + 1),
        }
    }

    // Goes over bytes whose pairs are held, while their cells are rows from `floor` on.
    #[inline(never)]
    fn walk(&self, asked: &LineSearch, from: Spot, floor: u32) -> Walk
        requires right { IsRightFor asked.now self.now }
        requires within { from.place ≤ length asked.now.line.now }
        requires row { IsRow self.now from.row }
        ensures on { (from.place ≤ result.place) × (result.place ≤ length asked.now.line.now) }
        ensures row { IsRow self.now result.row }
        ensures cell { result.place < length asked.now.line.now →
            result.cell ≡
            cell_at self.now.classes.items self.now.pairs.cells result.row
            (slice_index asked.now.line.now result.place) }
        ensures comes { (first : Stage) (steps : Steps) →
            IsAt asked.now first self.now steps from.place from.row
            → IsAt asked.now first self.now (walked (result.place - from.place) steps) result.place
            result.row }
    {
        let line = asked.line;
        let classes = self.classes.as_slice();
        let cells = self.pairs.cells();
        let mut row = from.row;
        let mut place = from.place;
        'places: while place < line.len() {
            let cell = cell_in(cells, row, classes[line[place] as usize] as usize);
            if cell < floor || cell >= LIMIT {
                return Walk { place, row, cell };
            }
            row = cell as usize;
            place += 1;
        }
        Walk {
            place,
            row,
            cell: UNKNOWN,
        }
    }

    // Goes over one byte. The step is taken from the table if it is held, and worked out if not.
    // Returns the cell for it; `None` if only the scratch set is the next one.
    #[inline(always)]
    fn step(&mut self, asked: &LineSearch, walk: Walk, byte: u8, meter: &mut Meter) -> Option<u32>
        requires ready { IsReady asked.now self.old }
        requires row { IsRow self.old walk.row }
        requires cell { walk.cell ≡
            cell_at self.old.classes.items self.old.pairs.cells walk.row byte }
        ensures lasts { Lasts asked.now self.old self.new }
        ensures right { IfSome result (λ _. IsRightFor asked.now self.new) }
        ensures cell { IfSome result (λ cell. (cell < unknown) × IsRow self.new (row_under cell)) }
        ensures lands { IfSome result
            (LandsBy asked.now byte self.old meter.old walk.row self.new meter.new) }
        ensures alone { IfNone result
            (LandsUnkept asked.now byte self.old meter.old walk.row self.new.scratch meter.new) }
    {
        if walk.cell != UNKNOWN {
            meter.add_reused();
            return Some(walk.cell);
        }
        let Some(cell) = self.learn(asked, walk.row, byte, meter) else {
            return self.begin_anew(asked);
        };
        if self.pace.affords_miss(self.pairs.most(), &self.scratch) {
            return Some(cell);
        }
        None
    }

    // Works out the set after one more byte, which counts as one step, and keeps the result. `None`
    // if it can't be kept.
    #[inline(never)]
    fn learn(&mut self, asked: &LineSearch, row: usize, byte: u8, meter: &mut Meter) -> Option<u32>
        requires ready { IsReady asked.now self.old }
        requires row { IsRow self.old row }
        requires none { cell_at self.old.classes.items self.old.pairs.cells row byte ≡ unknown }
        ensures lasts { Lasts asked.now self.old self.new }
        ensures next { (set : Set) → IsRowOf self.old.sets.keys self.old.stride row set →
            IsNextSet (expression_in asked.now) asked.now.mode set byte self.new.scratch }
        ensures counted { meter.new ≡ many_built 1 meter.old }
        ensures right { IfSome result (λ _. IsRightFor asked.now self.new) }
        ensures found { (set : Set) → IsRowOf self.old.sets.keys self.old.stride row set →
            IfSome result (IsKnownCell asked.now self.new set byte) }
        ensures others { (set : Set) → IsRowOf self.old.sets.keys self.old.stride row set →
            IfSome result (λ _. HoldsNoOther (expression_in asked.now) (cache_of self.old) set byte
            (cache_of self.new)) }
    {
        let from = &self.sets.as_slice()[self.stride.number(row)];
        asked
            .automaton
            .advance(asked.mode, from, byte, &mut self.scratch, meter);
        let number = self.number_of(asked)?;
        let cell = self.cell_of(asked.mode, number);
        let at = row + self.classes.as_slice()[byte as usize] as usize;
        self.pairs.put(at as u32, cell);
        Some(cell)
    }

    // Where the search goes on after this cell led to this place. Bytes that it skips count as built
    // steps.
    #[inline(always)]
    fn arrive(&mut self, asked: &LineSearch, place: usize, cell: u32, meter: &mut Meter) -> Went
        requires right { IsRightFor asked.now self.old }
        requires within { (1 ≤ place) × (place ≤ length asked.now.line.now) }
        requires known { cell < unknown }
        requires row { IsRow self.old (row_under cell) }
        ensures leads { LeadsOn asked.now self.old meter.old place cell self.new meter.new result }
        ensures right { IsRightFor asked.now self.new }
        ensures keeps { Keeps self.old self.new }
    {
        if cell >= LIMIT {
            if place < asked.line.len() {
                return Went::Reported(true);
            }
            return Went::To(Spot {
                place,
                row: (cell - LIMIT) as usize,
            });
        }
        if cell > 0 {
            return Went::To(Spot {
                place,
                row: cell as usize,
            });
        }
        if asked.mode == Mode::Whole {
            return Went::Reported(false);
        }
        let next = asked.automaton.next_beginning(asked.line, place, meter);
        self.pace.note_pass(next - place);
        Went::To(Spot {
            place: next,
            row: 0,
        })
    }
}

// The cell of a row in a column. Where the column begins is known before the row is, so that a walk waits
// for one load a byte, and not for a sum as well.
#[inline(always)]
fn cell_in(cells: &[u32], row: usize, column: usize) -> u32
    requires { row + column < length cells.now }
    ensures { result ≡ slice_index cells.now (row + column) }
{
    let rows = &cells[column..];
    rows[row]
}
