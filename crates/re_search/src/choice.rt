//! Patterns that are searched for as one.
ghost use Rattle.std.specs.Prelude.{◌≡◌, ◌+◌, ◌≤◌, ◌++◌, ◌↔◌, [], ◌∷◌, Bool, IsTrue, IfOk, map};
ghost use Rattle.re_syntax.specs.{Holds.positions, Expression.alt, Working.Trees.expression_of};
ghost use Rattle.{re_syntax.specs.Profile.most_positions, re_search.specs.Working.Matchers.room_of};
ghost use Rattle.re_search.specs.Working.Matchers.{entries_of, wants_whole, matched_expression};
ghost use Rattle.re_search.specs.Working.Patterns.{pattern_expression, meant_by, IsCounted};

use crate::matcher::{Matcher, tree_matcher};
use crate::pattern::Pattern;
use re_syntax::{MOST_POSITIONS, Tree};
use std::alloc::{AllocError, Global};
use std::marker::Model;

/// Expressions for which a line is searched at once: it is matched where one of them matches it.
/// Together they have at most 4,096 positions once their intervals are written out. Contracts see
/// their trees.
#[derive(Drop)]
pub struct Choice {
    trees: Vec<Tree>,
    // How many positions they have together.
    total: usize,
}

impl Model for Choice {
    ghost use Rattle.std.specs.Prelude.{◌≡◌, ◌≤◌, List, map};
    ghost use Rattle.std.specs.Coded.{codes};
    ghost use Rattle.re_syntax.specs.Expression.{alt};
    ghost use Rattle.re_syntax.specs.Holds.{positions};
    ghost use Rattle.re_syntax.specs.Profile.{most_positions};
    ghost use Rattle.re_syntax.specs.Working.Trees.{expression_of};
    ghost use Rattle.re_trees.specs.declared.tree.Tree.{Tree};
    ghost use Rattle.re_trees.specs.contracts.tree.Tree as e;

    ghost Value = { List Tree };

    ghost coded = { Prim.hlevel (codes, e.the_row.coded) };

    ghost view = { λ c. c.trees.items };

    ghost invariant = { λ c. (c.total ≡ positions (alt (map expression_of c.trees.items)))
        × (c.total ≤ most_positions) };
}

impl Choice {
    /// A choice of nothing.
    pub fn new(alloc: Global) -> Choice
        ensures { result ≡ [] }
    {
        Choice {
            trees: Vec::new(alloc),
            total: 0,
        }
    }

    /// Whether it has no expression.
    pub fn is_empty(&self) -> bool
        ensures { IsTrue result ↔ self.now ≡ [] }
    {
        self.trees.is_empty()
    }

    /// Whether all would have at most 4,096 positions together with the pattern.
    pub fn has_room(&self, pattern: &Pattern<'_>) -> bool
        ensures { (fold : Bool) → IsCounted fold pattern.now → IsTrue result ↔
            positions (alt (map expression_of self.now))
            + positions (pattern_expression pattern.now) ≤ most_positions }
    {
        pattern.positions() <= MOST_POSITIONS - self.total
    }

    /// Adds the pattern; with `fold` both cases of each letter are alike.
    pub fn add(&mut self, alloc: Global, pattern: Pattern<'_>, fold: bool) -> Result<(), AllocError>
        requires counted { IsCounted fold pattern }
        requires room { positions (alt (map expression_of self.old))
            + positions (pattern_expression pattern) ≤ most_positions }
        ensures { IfOk result (λ _. map expression_of self.new ≡
            map expression_of self.old ++ meant_by fold pattern.entry ∷ []) }
    {
        let count = pattern.positions();
        let tree = pattern.into_tree(alloc, fold)?;
        self.trees.push(tree)?;
        self.total += count;
        Ok(())
    }

    /// The matcher that steps one automaton for all, with a cache of at most `states` entries, from 1 to
    /// 65,536.
    pub fn into_matcher(
        self,
        alloc: Global,
        whole: bool,
        states: usize,
    ) -> Result<Matcher, AllocError>
        requires { 1 ≤ states }
        ensures expression { IfOk result (λ m. matched_expression m ≡ alt (map expression_of self)) }
        ensures whole { IfOk result (λ m. wants_whole m ≡ whole) }
        ensures room { IfOk result (λ m. room_of m ≤ states) }
        ensures empty { IfOk result (λ m. entries_of m ≡ []) }
    {
        tree_matcher(alloc, Tree::Alt(self.trees), whole, states)
    }
}
