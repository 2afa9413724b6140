//! Trees that are built of tokens, one after another.
ghost use Rattle.std.specs.Prelude.{IfErr, [], ◌∷◌, IfOk, ◌++◌, ◌≡◌, map};
ghost use Rattle.re_trees.specs.Expression.{repeat, sequence, choice};
ghost use Rattle.{re_trees.specs.Working.Trees.expression_of, re_syntax.specs.Faults.IsOutOfMemory};
ghost use Rattle.re_syntax.specs.Working.Builds.{Frame, FrameMeans, Builds, nothing_built};
ghost use Rattle.re_syntax.specs.Working.Builds.{repeat_last, branches_of, fresh, BuildsOn};
ghost use Rattle.re_syntax.specs.{Working.TokenSteps.token_of, Tokens.{opening, closing, bar}};

use crate::fault::{FaultKind, PatternFault};
use crate::interval::Counts;
use crate::tokens::{Token, tree_of};
use re_trees::Tree;
use std::alloc::Global;
use std::mem;

/// A level that is built: its branches, and the items of the branch after them.
#[derive(Drop)]
pub struct TreeFrame {
    /// The branches.
    pub branches: Vec<Tree>,
    /// The items.
    pub items: Vec<Tree>,
}

/// The innermost level, and those around it, the outermost first.
#[derive(Drop)]
pub struct Building {
    /// The innermost level.
    pub level: TreeFrame,
    /// The levels around it.
    pub outer: Vec<TreeFrame>,
}

/// The fault of running out of memory.
fn out_of_memory() -> PatternFault
    ensures { result ≡ record { kind = FaultKind.Memory; at = 0 } }
{
    PatternFault {
        kind: FaultKind::Memory,
        at: 0,
    }
}

/// A level of nothing.
fn no_frame(alloc: Global) -> TreeFrame
    ensures { FrameMeans result fresh }
{
    TreeFrame {
        branches: Vec::new(alloc),
        items: Vec::new(alloc),
    }
}

/// Nothing that is built.
pub fn nothing(alloc: Global) -> Building
    ensures { Builds result nothing_built }
{
    Building {
        level: no_frame(alloc),
        outer: Vec::new(alloc),
    }
}

/// Adds a tree.
fn add(trees: &mut Vec<Tree>, tree: Tree) -> Result<(), PatternFault>
    ensures added { IfOk result
        (λ _. map expression_of trees.new.items ≡
        map expression_of trees.old.items ++ expression_of tree ∷ []) }
    ensures refused { IfErr result IsOutOfMemory }
{
    if trees.push(tree).is_err() {
        return Err(out_of_memory());
    }
    Ok(())
}

/// Adds a level.
fn keep(outer: &mut Vec<TreeFrame>, frame: TreeFrame) -> Result<(), PatternFault>
    ensures added { IfOk result (λ _. outer.new.items ≡ outer.old.items ++ frame ∷ []) }
    ensures refused { IfErr result IsOutOfMemory }
{
    if outer.push(frame).is_err() {
        return Err(out_of_memory());
    }
    Ok(())
}

/// One tree for the trees in order.
fn sequence_of(mut parts: Vec<Tree>) -> Tree
    ensures { expression_of result ≡ sequence (map expression_of parts.items) }
{
    if parts.len() < 2 {
        match parts.pop() {
            Some(only) => only,
            None => Tree::Empty,
        }
    } else {
        Tree::Cat(parts)
    }
}

/// One tree for the trees of an expression's branches, in order.
fn choice_of(mut branches: Vec<Tree>) -> Tree
    ensures { expression_of result ≡ choice (map expression_of branches.items) }
{
    if branches.len() < 2 {
        match branches.pop() {
            Some(only) => only,
            None => Tree::Empty,
        }
    } else {
        Tree::Alt(branches)
    }
}

/// The tree of a level.
pub fn tree_of_level(level: TreeFrame) -> Result<Tree, PatternFault>
    ensures made { IfOk result
        (λ tree. (l : Frame) → FrameMeans level l → expression_of tree ≡ choice (branches_of l)) }
    ensures refused { IfErr result IsOutOfMemory }
{
    let TreeFrame {
        mut branches,
        items,
    } = level;
    add(&mut branches, sequence_of(items))?;
    Ok(choice_of(branches))
}

/// Begins a level inside the others.
fn open_level(alloc: Global, building: &mut Building) -> Result<(), PatternFault>
    ensures built { IfOk result (λ _. BuildsOn opening building.old building.new) }
    ensures refused { IfErr result IsOutOfMemory }
{
    let around = mem::replace(&mut building.level, no_frame(alloc));
    keep(&mut building.outer, around)?;
    Ok(())
}

/// Makes the innermost level an item of the one around it, if there is one.
fn close_level(building: &mut Building) -> Result<(), PatternFault>
    ensures built { IfOk result (λ _. BuildsOn closing building.old building.new) }
    ensures refused { IfErr result IsOutOfMemory }
{
    let Some(around) = building.outer.pop() else {
        return Ok(());
    };
    let group = mem::replace(&mut building.level, around);
    let tree = tree_of_level(group)?;
    add(&mut building.level.items, tree)?;
    Ok(())
}

/// Ends the branch of the innermost level.
fn end_branch(alloc: Global, building: &mut Building) -> Result<(), PatternFault>
    ensures built { IfOk result (λ _. BuildsOn bar building.old building.new) }
    ensures refused { IfErr result IsOutOfMemory }
{
    let items = mem::replace(&mut building.level.items, Vec::new(alloc));
    add(&mut building.level.branches, sequence_of(items))?;
    Ok(())
}

/// The tree of a repeated item.
fn repeated_tree(alloc: Global, tree: Tree, counts: Counts) -> Result<Tree, PatternFault>
    ensures made { IfOk result
        (λ new. expression_of new ≡ repeat (expression_of tree) counts.least counts.most) }
    ensures refused { IfErr result IsOutOfMemory }
{
    match Box::new(alloc, tree) {
        Ok(part) => Ok(Tree::Repeat(part, counts.least, counts.most)),
        Err(_) => Err(out_of_memory()),
    }
}

/// The last of some items, repeated.
fn repeat_one(alloc: Global, items: &mut Vec<Tree>, counts: Counts) -> Result<(), PatternFault>
    ensures made { IfOk result
        (λ _. map expression_of items.new.items ≡
        repeat_last counts.least counts.most (map expression_of items.old.items)) }
    ensures refused { IfErr result IsOutOfMemory }
{
    let Some(last) = items.pop() else {
        return Ok(());
    };
    let tree = repeated_tree(alloc, last, counts)?;
    add(items, tree)?;
    Ok(())
}

/// Builds on with a token.
pub fn build(alloc: Global, building: &mut Building, token: Token) -> Result<(), PatternFault>
    ensures built { IfOk result (λ _. BuildsOn (token_of token) building.old building.new) }
    ensures refused { IfErr result IsOutOfMemory }
{
    match token {
        Token::Opening => open_level(alloc, building),
        Token::Closing => close_level(building),
        Token::Bar => end_branch(alloc, building),
        Token::Lead => add(&mut building.level.items, Tree::Begin),
        Token::Atom(atom) => add(&mut building.level.items, tree_of(atom)),
        Token::Times(counts) => repeat_one(alloc, &mut building.level.items, counts),
    }
}
