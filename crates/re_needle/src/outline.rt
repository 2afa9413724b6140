//! Outlines of expressions: the sets of bytes that every match has one after another.
ghost use Rattle.std.specs.Prelude.{◌≡◌, ◌++◌, ◌∷◌, [], IfOk, IfSome, IsTrue, Some, map};
ghost use Rattle.re_trees.specs.Expression.{alt, cat, one_of, repeat};
ghost use Rattle.re_trees.specs.Working.Trees.{expression_of, members};
ghost use Rattle.re_needle.specs.Working.Outlines.{AddsOutline, AddsSets, AddsTurns, AreJoined};

use crate::choice::RunKind;
use crate::leading_sets::leading_sets;
use crate::outline_item::OutlineItem;
use re_trees::{ByteSet, Tree};
use std::alloc::{AllocError, Global};

// How many times a repeated set is in an outline at most.
const MOST_TURNS: u16 = 32;

// How many trees, one in another, an outline looks into: each of them takes stack.
const MOST_DEPTH: u16 = 64;

/// Adds the outline of the expression. It goes through groups and into what is repeated once or
/// more, unless they nest deep. It has a mark for each time that a set is repeated at least, and the
/// sets that the branches of a choice begin with. The only error is that an allocation failed.
pub fn add_outline(
    alloc: Global,
    tree: &Tree,
    marks: &mut Vec<OutlineItem>,
) -> Result<(), AllocError>
    ensures { IfOk result
        (λ _. AddsOutline marks.old.items (expression_of tree.now) marks.new.items) }
{
    add_tree(alloc, tree, MOST_DEPTH, marks)
}

/// Adds the outlines of parts that follow one another.
pub fn add_parts(
    alloc: Global,
    parts: &[Tree],
    marks: &mut Vec<OutlineItem>,
) -> Result<(), AllocError>
    ensures { IfOk result
        (λ _. AddsOutline marks.old.items (cat (map expression_of parts.now)) marks.new.items) }
{
    add_all(alloc, parts, MOST_DEPTH, marks)
}

/// The same of a tree that is looked into so deep. What is deeper is a stretch.
#[cycle(outline)]
fn add_tree(
    alloc: Global,
    tree: &Tree,
    depth: u16,
    marks: &mut Vec<OutlineItem>,
) -> Result<(), AllocError>
    ensures { IfOk result
        (λ _. AddsOutline marks.old.items (expression_of tree.now) marks.new.items) }
{
    if depth == 0 {
        return add_mark(marks, OutlineItem::Gap);
    }
    let inside = depth - 1;
    match tree {
        Tree::Set(set) => add_mark(marks, OutlineItem::Set(*set)),
        Tree::Cat(parts) => add_all(alloc, parts, inside, marks),
        Tree::Alt(parts) => add_choice(alloc, parts, inside, marks),
        Tree::Repeat(part, least, most) => {
            if let Some(set) = one_set(part) {
                return add_repeated(marks, set, *least, *most);
            }
            if *least == 0 {
                return add_mark(marks, OutlineItem::Optional);
            }
            add_tree(alloc, part, inside, marks)?;
            add_mark(marks, OutlineItem::Gap)
        }
        _ => add_mark(marks, OutlineItem::Gap),
    }
}

/// Adds the outlines of parts that follow one another.
#[cycle(outline)]
fn add_all(
    alloc: Global,
    parts: &[Tree],
    depth: u16,
    marks: &mut Vec<OutlineItem>,
) -> Result<(), AllocError>
    ensures { IfOk result
        (λ _. AddsOutline marks.old.items (cat (map expression_of parts.now)) marks.new.items) }
{
    'parts: for i in 0..parts.len() {
        add_tree(alloc, &parts[i], depth, marks)?;
    }
    Ok(())
}

/// Adds the outline of a choice: the sets that its branches begin with, joined place by place as
/// far as each branch has one, and a stretch.
#[cycle(outline)]
fn add_choice(
    alloc: Global,
    parts: &[Tree],
    depth: u16,
    marks: &mut Vec<OutlineItem>,
) -> Result<(), AllocError>
    ensures { IfOk result
        (λ _. AddsOutline marks.old.items (alt (map expression_of parts.now)) marks.new.items) }
{
    let mut front = Vec::new(alloc);
    'parts: for i in 0..parts.len() {
        let mut branch = Vec::new(alloc);
        add_tree(alloc, &parts[i], depth, &mut branch)?;
        let sets = leading_sets(alloc, &branch, RunKind::SmallSets)?;
        if i == 0 {
            front = sets;
        } else {
            join(&mut front, &sets);
        }
    }
    add_sets(marks, &front)?;
    add_mark(marks, OutlineItem::Gap)
}

// The set of the expression, if it is a set alone.
fn one_set(tree: &Tree) -> Option<ByteSet>
    ensures { IfSome result (λ set. expression_of tree.now ≡ one_of (members set)) }
{
    match tree {
        Tree::Set(set) => Some(*set),
        _ => None,
    }
}

// Adds the outline of a repeated set: one mark for each time that it is repeated at least, and an
// optional stretch if it may be repeated more often.
fn add_repeated(
    marks: &mut Vec<OutlineItem>,
    set: ByteSet,
    least: u16,
    most: Option<u16>,
) -> Result<(), AllocError>
    ensures { IfOk result (λ _. AddsOutline marks.old.items
        (repeat (one_of (members set)) least most) marks.new.items) }
{
    let turns = least.min(MOST_TURNS);
    add_turns(marks, set, turns)?;
    if turns < least {
        return add_mark(marks, OutlineItem::Gap);
    }
    let Some(top) = most else {
        return add_mark(marks, OutlineItem::Optional);
    };
    if top < least {
        return add_mark(marks, OutlineItem::Gap);
    }
    if top == least {
        return Ok(());
    }
    add_mark(marks, OutlineItem::Optional)
}

// Adds `turns` marks for the set.
fn add_turns(marks: &mut Vec<OutlineItem>, set: ByteSet, turns: u16) -> Result<(), AllocError>
    ensures { IfOk result
        (λ _. AddsTurns marks.old.items (members set) turns marks.new.items) }
{
    'turns: for _turn in 0..turns {
        marks.push(OutlineItem::Set(set))?;
    }
    Ok(())
}

/// Joins the sets place by place, as far as both lists have one.
pub fn join(front: &mut Vec<ByteSet>, sets: &[ByteSet])
    ensures { AreJoined (map members front.old.items) (map members sets.now)
        (map members front.new.items) }
{
    front.truncate(sets.len());
    'places: for k in 0..front.len() {
        front[k] = front[k].union(sets[k]);
    }
}

// Adds a mark for each set.
fn add_sets(marks: &mut Vec<OutlineItem>, sets: &[ByteSet]) -> Result<(), AllocError>
    ensures { IfOk result
        (λ _. AddsSets marks.old.items (map members sets.now) marks.new.items) }
{
    'sets: for k in 0..sets.len() {
        marks.push(OutlineItem::Set(sets[k]))?;
    }
    Ok(())
}

fn add_mark(marks: &mut Vec<OutlineItem>, mark: OutlineItem) -> Result<(), AllocError>
    ensures { IfOk result (λ _. marks.new.items ≡ marks.old.items ++ mark ∷ []) }
{
    marks.push(mark)?;
    Ok(())
}
