//! The sets that an outline begins with.
ghost use Rattle.std.specs.Prelude.{◌≡◌, ◌++◌, List, Option, Some, IfOk, IfSome, map};
ghost use Rattle.re_trees.specs.{Bytes.Bytes, Working.Trees.members};
ghost use Rattle.re_needle.specs.Working.Outlines.{shown};

use crate::choice::{RunKind, mark_survey};
use crate::outline_item::OutlineItem;
use re_trees::ByteSet;
use std::alloc::{AllocError, Global};

// How many small sets are looked for at most. All of them may be compared at a place.
const MOST_SMALL_SETS: usize = 32;

// How many sets of any size are looked for at most. More of them may be compared before one doesn't
// fit.
const MOST_SETS: usize = 12;

/// The sets of the marks before the first that isn't a set of such a run, at most as many as are
/// looked for.
pub fn leading_sets(
    alloc: Global,
    marks: &[OutlineItem],
    of: RunKind,
) -> Result<Vec<ByteSet>, AllocError>
    ensures { IfOk result
        (λ sets. (rest : List (Option Bytes)) ×
        (map shown marks.now ≡ map Some (map members sets.items) ++ rest)) }
{
    let mut sets = Vec::new(alloc);
    'marks: for mark in marks {
        let Some(set) = next_run_set(mark, sets.len(), of) else {
            return Ok(sets);
        };
        sets.push(set)?;
    }
    Ok(sets)
}

// The set of the mark, if it is one of such a run and fewer than the most are there already.
fn next_run_set(mark: &OutlineItem, before: usize, of: RunKind) -> Option<ByteSet>
    ensures { IfSome result (λ set. shown mark.now ≡ Some (members set)) }
{
    if before >= most_sets(of) {
        return None;
    }
    mark_survey(mark, of)?;
    match mark {
        OutlineItem::Set(set) => Some(*set),
        OutlineItem::Optional => None,
        OutlineItem::Gap => None,
    }
}

// How many sets of such a run are looked for at most.
fn most_sets(of: RunKind) -> usize {
    match of {
        RunKind::Bytes | RunKind::SmallSets => MOST_SMALL_SETS,
        RunKind::Sets => MOST_SETS,
    }
}
