//! What every match of a choice contains: a run of one of its branches.
ghost use Rattle.std.specs.Prelude.{IfOk, IfSome, map};
ghost use Rattle.re_trees.specs.{Expression.Expression, Working.Trees.expression_of};
ghost use Rattle.re_needle.specs.Working.Needles.{IsNeedleFor, IsRunNeedleFor};
ghost use Rattle.re_needle.specs.Working.Branches.{AreRunsOf, branch_within, branches_within};
ghost use Rattle.re_needle.specs.Working.{Branches.choice_within, Outlines.{IsOutline, shown}};

use crate::needle::{Needle, run_needle};
use crate::outline::{add_outline, add_parts};
use crate::outline_item::OutlineItem;
use re_runs::{RunFinder, SetFinder};
use re_trees::{ByteSet, Tree};
use std::alloc::{AllocError, Global};

// How many runs are looked for at once.
const MOST_RUNS: usize = 20;

// Among how many parts a choice is found.
const MOST_PARTS: usize = 16;

// Runs that are at so many places of 65,536 fewer are looked for in place of others.
const FEW_STOPS: u64 = 32;

/// The runs to look for of a choice: one of each branch, if there are from two to twenty branches.
/// `None` if it is no choice of so many, if a branch isn't known to need a run, or if the runs are
/// common and not all there is. The only error is that an allocation failed.
pub fn choice_needle(alloc: Global, tree: &Tree) -> Result<Option<Needle>, AllocError>
    ensures { IfOk result (IsNeedleFor (expression_of tree.now)) }
{
    let Tree::Alt(branches) = tree else {
        return Ok(None);
    };
    needle_around(alloc, &[], branches, &[])
}

/// Of parts that follow one another, the runs for the first choice among them whose runs are rare
/// in most texts, and at much fewer than `most` of 65,536 places. A branch's run may go over parts
/// before and after it. The only error is that an allocation failed.
pub fn needle_inside(alloc: Global, tree: &Tree, most: u64) -> Result<Option<Needle>, AllocError>
    ensures { IfOk result (IsNeedleFor (expression_of tree.now)) }
{
    let Tree::Cat(parts) = tree else {
        return Ok(None);
    };
    let most = most.saturating_sub(FEW_STOPS);
    if most == 0 {
        return Ok(None);
    }
    'parts: for place in 0..parts.len().min(MOST_PARTS) {
        let Tree::Alt(branches) = &parts[place] else {
            continue 'parts;
        };
        let Some(needle) = needle_around(alloc, &parts[..place], branches, &parts[place + 1..])?
        else {
            continue 'parts;
        };
        if needle.is_rare(most) {
            return Ok(Some(needle));
        }
    }
    Ok(None)
}

// The same for a choice among parts: a run of each branch with the parts before and after it.
fn needle_around(
    alloc: Global,
    before: &[Tree],
    branches: &[Tree],
    after: &[Tree],
) -> Result<Option<Needle>, AllocError>
    ensures { IfOk result (IsNeedleFor (choice_within before.now branches.now after.now)) }
{
    if branches.len() < 2 || branches.len() > MOST_RUNS {
        return Ok(None);
    }
    let Some(
        BranchRuns {
            runs,
            are_first,
            are_all,
            suffice,
        },
    ) = branch_runs(alloc, before, branches, after)?
    else {
        return Ok(None);
    };
    let Some(finder) = SetFinder::new(alloc, runs)? else {
        return Ok(None);
    };
    if !are_all && !finder.is_selective() {
        return Ok(None);
    }
    Ok(Some(Needle {
        finder: RunFinder::Sets(finder),
        is_first: are_first,
        is_all: are_all,
        suffices: suffice,
        is_common: false,
    }))
}

/// A run of each branch of a choice.
#[derive(Drop)]
pub struct BranchRuns {
    /// The runs.
    pub runs: Vec<Vec<ByteSet>>,
    /// Whether each match of each branch begins with its run.
    pub are_first: bool,
    /// Whether the matches of each branch are exactly the places of its run.
    pub are_all: bool,
    /// Whether each branch has a match wherever its run is.
    pub suffice: bool,
}

// A run of each branch; `None` if one isn't known to need any.
fn branch_runs(
    alloc: Global,
    before: &[Tree],
    branches: &[Tree],
    after: &[Tree],
) -> Result<Option<BranchRuns>, AllocError>
    ensures { IfOk result (λ found. IfSome found
        (AreRunsOf (branches_within before.now branches.now after.now))) }
{
    let mut found = BranchRuns {
        runs: Vec::new(alloc),
        are_first: true,
        are_all: true,
        suffice: true,
    };
    'branches: for place in 0..branches.len() {
        let marks = outline_around(alloc, before, &branches[place], after)?;
        let Some(needle) = run_needle(alloc, &marks, branches.len())? else {
            return Ok(None);
        };
        let run = needle.finder.sets(alloc)?;
        found.are_first &= needle.is_first;
        let is_whole = run.len() == needle.finder.longest();
        found.are_all &= needle.is_all & is_whole;
        found.suffice &= needle.suffices & is_whole;
        found.runs.push(run)?;
    }
    Ok(Some(found))
}

// The outline of a branch between other parts.
fn outline_around(
    alloc: Global,
    before: &[Tree],
    branch: &Tree,
    after: &[Tree],
) -> Result<Vec<OutlineItem>, AllocError>
    ensures { IfOk result (λ marks. IsOutline marks.items
        (branch_within before.now (expression_of branch.now) after.now)) }
{
    let mut marks = Vec::new(alloc);
    add_parts(alloc, before, &mut marks)?;
    add_outline(alloc, branch, &mut marks)?;
    add_parts(alloc, after, &mut marks)?;
    Ok(marks)
}
