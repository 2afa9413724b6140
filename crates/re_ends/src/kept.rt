//! Steps between rows of groups, as far as they are kept.
ghost use Rattle.std.specs.Prelude.{◌≡◌, ℕ, ◌+◌, ◌*◌, ◌^◌, ◌<◌, ◌≤◌, Bool, true, false, [], ◌∷◌};
ghost use Rattle.std.specs.Prelude.{◌++◌, IsTrue, IfOk, IfSome, OnOk, List, length, get_or};
ghost use Rattle.std.specs.Prelude.{slice_index};
ghost use Rattle.re_trees.specs.{Holds.positions, Working.Trees.expression_of};
ghost use Rattle.{re_trees.specs.Expression.Expression, re_auto.specs.Working.Positions.part_of};
ghost use Rattle.re_ends.specs.Working.Groups.{AreGroupsFor, Fits, Leaves, IsRow, IsStep};
ghost use Rattle.re_ends.specs.Working.{Groups.numbers_of, KeptSteps.{AreLonger, IsRowIn, no_step}};
ghost use Rattle.re_ends.specs.Working.KeptSteps.{unknown, cell_at, listed, rows_of, AreRowsFor};
ghost use Rattle.re_ends.specs.Working.KeptSteps.{IsOperation, AreStepsFor};

use crate::groups::{Groups, first_in};
use crate::list::{EndList, Run};
use re_auto::Automaton;
use std::alloc::{AllocError, Global};
use std::collections::HashMap;

// The most bytes that rows, cells and lists take.
const MOST_BYTES: usize = 1 << 24;

// The most cells.
const MOST_CELLS: usize = 1 << 30;

// From this operation on, an operation is the number of a list of runs of ends that stay, plus this.
// Below it is the first end that stays, as do those after it, or 0 where none stays.
const LISTED: u16 = 1 << 15;

// No operation.
const UNKNOWN: u16 = u16::MAX;

// The most lists.
const MOST_LISTS: usize = (UNKNOWN - LISTED) as usize;

/// A kept step.
#[derive(Clone, Copy, Drop)]
pub struct Step {
    /// Where the row of the groups before the byte has its cells.
    pub row: u32,
    /// The first of these groups with a position that a stretch inside a line can begin with, counted
    /// from 1 on, or 0 if there is none.
    pub inside: u16,
    /// Which ends stay.
    pub op: u16,
    /// How many ends stay.
    pub count: u16,
}

// What a cell has whose step is not kept.
const NO_STEP: Step = Step {
    row: 0,
    inside: 0,
    op: UNKNOWN,
    count: 0,
};

/// Rows of groups, and for each row a cell for each class of bytes, with the step over such a byte
/// if it is kept. The first row is that of a line's end, the second that of a place inside a line
/// that no match goes over.
#[derive(Drop)]
pub struct KeptSteps {
    classes: Vec<u8>,
    width: usize,
    rows: Vec<Vec<u64>>,
    cells: Vec<Step>,
    lists: Vec<Vec<Run>>,
    numbers: HashMap<u64, usize>,
    bytes: usize,
}

impl KeptSteps {
    /// No steps, and rows without groups.
    pub fn new(alloc: Global, automaton: &Automaton) -> Result<KeptSteps, AllocError>
        ensures { IfOk result (AreStepsFor (expression_of automaton.now)) }
    {
        let classes = Vec::from_slice(alloc, automaton.classes())?;
        let width = count_of(&classes);
        let mut cells = Vec::new(alloc);
        lengthen(&mut cells, 0, 3 * width)?;
        let mut rows = Vec::new(alloc);
        rows.push(Vec::new(alloc))?;
        rows.push(Vec::new(alloc))?;
        rows.push(Vec::with_capacity(alloc, automaton.size())?)?;
        Ok(KeptSteps {
            classes,
            width,
            rows,
            cells,
            lists: Vec::new(alloc),
            numbers: HashMap::new(alloc),
            bytes: 0,
        })
    }

    /// The row without groups, at a line's end or inside a line.
    pub fn first_row(&self, at_end: bool) -> usize
        requires sound { (e : Expression) × AreStepsFor e self.now }
        ensures { IsRowIn self.now result at_end [] }
    {
        if at_end {
            return 0;
        }
        self.width
    }

    /// Removes all steps, and all rows but the first two. Returns where the row with these pieces
    /// begins.
    pub fn begin_anew(&mut self, automaton: &Automaton, row: &[u64]) -> usize
        requires rows { AreRowsFor (expression_of automaton.now) self.old }
        requires row { IsRow (positions (expression_of automaton.now)) row.now }
        ensures sound { AreStepsFor (expression_of automaton.now) self.new }
        ensures row { IsRowIn self.new result false row.now }
    {
        self.rows.truncate(3);
        let third = &mut self.rows[2];
        third.clear();
        let _ = third.extend_from_slice(row);
        self.cells.truncate(3 * self.width);
        self.cells.fill(NO_STEP);
        self.lists.clear();
        self.numbers.clear();
        self.bytes = 0;
        2 * self.width
    }

    // Whether no more steps may be kept.
    fn is_full(&self) -> bool {
        self.lists.len() >= MOST_LISTS || self.bytes >= MOST_BYTES
    }

    // Counts elements that are kept, each of so many bytes.
    fn count_bytes(&mut self, elements: usize, bytes: usize)
        ensures { self.new ≡ record self.old { bytes = self.new.bytes } }
    {
        self.bytes = self.bytes.saturating_add(elements.saturating_mul(bytes));
    }

    /// The pieces of a row's groups.
    pub fn row(&self, row: usize) -> &[u64]
        requires sound { (e : Expression) × AreStepsFor e self.now }
        requires row { (end : Bool) × (of : List ℕ) × IsRowIn self.now row end of }
        ensures { (end : Bool) (of : List ℕ) → IsRowIn self.now row end of → result.now ≡ of }
    {
        &self.rows[row / self.width]
    }

    /// The step from a row over a byte.
    #[inline(always)]
    pub fn step(&self, row: usize, byte: u8) -> Step
        requires sound { (e : Expression) × AreStepsFor e self.now }
        requires row { (end : Bool) × (of : List ℕ) × IsRowIn self.now row end of }
        ensures is { result ≡ cell_at (rows_of self.now) row byte }
        ensures small { byte < 2 ^ 8 }
    {
        self.cells[row + self.classes[byte as usize] as usize]
    }

    /// Does with the ends what an operation says. `false`, and nothing is done, if there is none.
    #[inline(always)]
    pub fn apply(&self, step: Step, list: &mut EndList, place: usize) -> bool
        requires { step.op < unknown → (kept : List ℕ) × IsOperation self.now.lists.items step.op kept ×
            (length kept ≡ step.count) × Fits kept list.old }
        ensures none { result ≡ false → list.new ≡ list.old }
        ensures moved { (kept : List ℕ) → IsOperation self.now.lists.items step.op kept →
            (length kept ≡ step.count) → IsTrue result →
            Leaves kept (list.old.ends ++ place ∷ []) list.new.ends }
        ensures known { IsTrue result → step.op < unknown }
        ensures most { list.new.most ≡ list.old.most }
    {
        if step.op < LISTED {
            list.cut(step.op, step.count, place);
            return true;
        }
        if step.op == UNKNOWN {
            return false;
        }
        list.pick(&self.lists[(step.op - LISTED) as usize], step.count, place);
        true
    }

    /// Where the row of these groups begins. It is added if there is none. `None` if there is no room
    /// or memory for it, and then steps may be lost.
    pub fn row_of(&mut self, alloc: Global, automaton: &Automaton, groups: &Groups) -> Option<usize>
        requires sound { AreStepsFor (expression_of automaton.now) self.old }
        requires row { IsRow (positions (expression_of automaton.now)) groups.now.row.items }
        ensures rows { AreRowsFor (expression_of automaton.now) self.new }
        ensures sound { IfSome result (λ row. AreStepsFor (expression_of automaton.now) self.new ×
            IsRowIn self.new row false groups.now.row.items) }
        ensures kept { (row : ℕ) (end : Bool) (of : List ℕ) → IsRowIn self.old row end of →
            IsRowIn self.new row end of }
    {
        if self.is_full() {
            return None;
        }
        if let Some(row) = self.find(groups) {
            return Some(row);
        }
        match self.add(alloc, automaton, groups) {
            Ok(row) => Some(row),
            Err(_) => None,
        }
    }

    // The row of these groups, if it is found.
    fn find(&self, groups: &Groups) -> Option<usize>
        requires { (e : Expression) × AreStepsFor e self.now }
        ensures { IfSome result (λ row. IsRowIn self.now row false groups.now.row.items) }
    {
        let Some(known) = self.numbers.get(&groups.hash) else {
            return None;
        };
        let number = *known;
        if number == 0 || number >= self.rows.len() {
            return None;
        }
        if self.rows[number].as_slice() != groups.row.as_slice() {
            return None;
        }
        Some(number * self.width)
    }

    // Adds a row after the others.
    fn add(
        &mut self,
        alloc: Global,
        automaton: &Automaton,
        groups: &Groups,
    ) -> Result<usize, AllocError>
        requires sound { AreStepsFor (expression_of automaton.now) self.old }
        requires row { IsRow (positions (expression_of automaton.now)) groups.now.row.items }
        ensures rows { AreRowsFor (expression_of automaton.now) self.new }
        ensures sound { IfOk result (λ row. AreStepsFor (expression_of automaton.now) self.new ×
            IsRowIn self.new row false groups.now.row.items) }
        ensures kept { (row : ℕ) (end : Bool) (of : List ℕ) → IsRowIn self.old row end of →
            IsRowIn self.new row end of }
    {
        let number = self.rows.len();
        let first = number * self.width;
        if first > MOST_CELLS - 256 {
            return Err(AllocError);
        }
        let row = Vec::from_slice(alloc, &groups.row)?;
        lengthen(&mut self.cells, first, self.width)?;
        self.rows.push(row)?;
        let _ = self.numbers.insert(groups.hash, number);
        self.count_bytes(groups.row.len(), 8);
        self.count_bytes(self.width, 12);
        Ok(first)
    }

    /// Keeps a step from a row over a byte, to the row of the groups that it led to, if there is
    /// memory for it.
    pub fn put(
        &mut self,
        alloc: Global,
        automaton: &Automaton,
        from: usize,
        byte: u8,
        to: usize,
        groups: &Groups,
    )
        requires sound { AreStepsFor (expression_of automaton.now) self.old }
        requires made { AreGroupsFor (expression_of automaton.now) groups.now }
        requires row { IsRow (positions (expression_of automaton.now)) groups.now.row.items }
        requires from { (end : Bool) × (of : List ℕ) × IsRowIn self.old from end of ×
            IsStep (part_of (expression_of automaton.now) 0) end of byte
            (numbers_of groups.now.runs.items) groups.now.row.items }
        requires count { groups.now.count ≡ length (numbers_of groups.now.runs.items) }
        requires to { IsRowIn self.old to false groups.now.row.items }
        ensures sound { AreStepsFor (expression_of automaton.now) self.new }
        ensures kept { (row : ℕ) (end : Bool) (of : List ℕ) → IsRowIn self.old row end of →
            IsRowIn self.new row end of }
    {
        let Ok(op) = operation_of(alloc, &mut self.lists, &groups.runs) else {
            return;
        };
        let inside = first_in(&groups.row, automaton.beginning(false));
        let at = from + self.classes[byte as usize] as usize;
        self.cells[at] = Step {
            row: to as u32,
            inside,
            op,
            count: groups.count,
        };
        if op < LISTED {
            return;
        }
        self.count_bytes(groups.runs.len(), 4);
    }
}

// The operation that leaves the ends of these runs. They are listed if there is more than one.
fn operation_of(alloc: Global, lists: &mut Vec<Vec<Run>>, runs: &[Run]) -> Result<u16, AllocError>
    ensures kept { AreLonger lists.old.items lists.new.items }
    ensures op { IfOk result (λ op. (op < unknown) ×
        IsOperation lists.new.items op (numbers_of runs.now)) }
{
    let count = runs.len();
    if count == 0 {
        return Ok(0);
    }
    if count == 1 && runs[0].first < LISTED {
        return Ok(runs[0].first);
    }
    let number = lists.len();
    if number >= MOST_LISTS {
        return Err(AllocError);
    }
    let list = Vec::from_slice(alloc, runs)?;
    lists.push(list)?;
    Ok(LISTED + number as u16)
}

// Makes the cells those before place `from`, and then `count` without steps. If an allocation
// fails, there are only the first.
fn lengthen(cells: &mut Vec<Step>, from: usize, count: usize) -> Result<(), AllocError>
    requires from { from ≤ length cells.old.items }
    requires small { from + count < 2 ^ 32 }
    ensures same { (k : ℕ) → k < from →
        get_or cells.new.items k no_step ≡ get_or cells.old.items k no_step }
    ensures none { (k : ℕ) → from ≤ k → get_or cells.new.items k no_step ≡ no_step }
    ensures least { from ≤ length cells.new.items }
    ensures len { OnOk result (length cells.new.items ≡ from + count) }
{
    cells.truncate(from);
    cells.resize(from + count, NO_STEP)?;
    Ok(())
}

// The number of classes: all are below it.
fn count_of(classes: &[u8]) -> usize
    ensures few { result ≤ 256 }
    ensures above { (c : ℕ) → c < length classes.now → slice_index classes.now c < result }
{
    let mut count = 0;
    'bytes: for c in 0..classes.len() {
        count = count.max(classes[c] as usize + 1);
    }
    count
}
