//! From an expression to the tables of its automaton.
ghost use Rattle.std.specs.Prelude.{◌≡◌, ◌≤◌, IfOk, IfErr};
ghost use Rattle.re_trees.specs.{Limits.most_positions, Holds.positions};
ghost use Rattle.re_trees.specs.Working.Trees.{expression_of};
ghost use Rattle.re_auto.specs.Working.Tables.{IsRefused, AreTablesOf};

use crate::beginnings::Beginnings;
use crate::build::BuildFault;
use crate::build::classes::{bytes_meeting, classes_of};
use crate::build::count::{TOO_MANY, position_count};
use crate::build::rows::Rows;
use crate::ranges::ranges_of;
use crate::tables::Tables;
use re_trees::Tree;
use std::alloc::{AllocError, Global};

/// The tables of an expression. The errors are `Memory`, and `TooLarge` exactly where it has more
/// than 4,096 positions, which is known before any memory is allocated.
pub fn build_tables(alloc: Global, tree: &Tree) -> Result<Tables, BuildFault>
    ensures built { IfOk result (AreTablesOf (expression_of tree.now)) }
    ensures refused { IfErr result (IsRefused (positions (expression_of tree.now))) }
{
    let count = position_count(tree);
    if count == TOO_MANY {
        return Err(BuildFault::TooLarge);
    }
    match fill_tables(alloc, tree, count) {
        Ok(tables) => Ok(tables),
        Err(_) => Err(BuildFault::Memory),
    }
}

// The tables of an expression with `count` positions.
fn fill_tables(alloc: Global, tree: &Tree, count: usize) -> Result<Tables, AllocError>
    requires is { count ≡ positions (expression_of tree.now) }
    requires few { count ≤ most_positions }
    ensures { IfOk result (AreTablesOf (expression_of tree.now)) }
{
    let mut rows = Rows::blank(alloc, count)?;
    let ends = rows.add(alloc, tree, count)?;
    let ends = Box::into_inner(ends);
    let marks = bytes_meeting(&rows.takes, rows.width, &ends.first_inside);
    let classes = classes_of(alloc, &rows.takes, rows.width)?;
    let ranges = ranges_of(alloc, &rows.follow, rows.width, count)?;
    Ok(Tables {
        size: count,
        width: rows.width,
        class_of: classes.class_of,
        takes: classes.takes,
        follow: rows.follow,
        ranges,
        first_at_begin: ends.first_at_begin,
        first_inside: ends.first_inside,
        last_at_end: ends.last_at_end,
        last_inside: ends.last_inside,
        empty: ends.empty,
        beginnings: Beginnings::of(marks),
    })
}
