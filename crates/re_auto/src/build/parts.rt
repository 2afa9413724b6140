//! The parts of an expression, added to an automaton's rows from the last one to the first.
//!
//! A pattern may have 256 levels, so each of these functions keeps some 50 bytes on the stack: ends
//! are boxed, and all that makes or joins them is a call.
ghost use Rattle.std.specs.Prelude.{max, ◌*◌, map, ◌≤◌, IfOk, ◌+◌, ◌<◌, ◌≡◌};
ghost use Rattle.re_trees.specs.{Expression.{alt, cat, repeat}, Holds.positions};
ghost use Rattle.re_trees.specs.Working.Trees.{expression_of};
ghost use Rattle.re_auto.specs.Working.PartTables.{AreTurns, AreUpTo, HasRoom, IsAdded, IsAddedOf};
ghost use Rattle.re_auto.specs.Working.PartTables.{IsOnce, IsTail, tail_copies, wanted_position};

use crate::build::count::position_count;
use crate::build::ends::Ends;
use crate::build::rows::Rows;
use crate::tables::Empty;
use re_trees::{ByteSet, Tree};
use std::alloc::{AllocError, Global};

impl Rows {
    /// Adds the expression to the rows and returns its ends. Its positions are the last before the
    /// number `beyond`.
    #[cycle(add)]
    pub fn add(
        &mut self,
        alloc: Global,
        tree: &Tree,
        beyond: usize,
    ) -> Result<Box<Ends>, AllocError>
        requires fits { positions (expression_of tree.now) ≤ beyond }
        requires room { HasRoom beyond self.old }
        ensures { IfOk result
            (λ ends. IsAddedOf (expression_of tree.now) beyond self.old self.new ends.value) }
    {
        match tree {
            Tree::Empty => Ends::blank(alloc, self.width, beyond, Empty::anywhere()),
            Tree::Begin => Ends::blank(alloc, self.width, beyond, Empty::at_begin()),
            Tree::End => Ends::blank(alloc, self.width, beyond, Empty::at_end()),
            Tree::Set(set) => self.add_position(alloc, set, true, beyond),
            Tree::Not(set) => self.add_position(alloc, set, false, beyond),
            Tree::Cat(members) => self.add_sequence(alloc, members, beyond),
            Tree::Alt(members) => self.add_choice(alloc, members, beyond),
            Tree::Repeat(part, least, most) => match most {
                Some(most) => self.add_bounded(
                    alloc,
                    part,
                    *least as usize,
                    *most as usize,
                    beyond,
                ),
                None => self.add_unbounded(alloc, part, *least as usize, beyond),
            },
        }
    }

    /// Adds the members one after another.
    #[cycle(add)]
    #[inline(never)]
    fn add_sequence(
        &mut self,
        alloc: Global,
        members: &[Tree],
        beyond: usize,
    ) -> Result<Box<Ends>, AllocError>
        requires fits { positions (cat (map expression_of members.now)) ≤ beyond }
        requires room { HasRoom beyond self.old }
        ensures { IfOk result
            (λ ends. IsAddedOf (cat (map expression_of members.now)) beyond self.old self.new
            ends.value) }
    {
        let mut rest = Ends::blank(alloc, self.width, beyond, Empty::anywhere())?;
        let mut left = members.len();
        'members: while left > 0 {
            left -= 1;
            let Ok(part) = self.add(alloc, &members[left], rest.begins) else {
                return Err(Ends::out_of_memory(rest));
            };
            rest = self.in_turn(part, rest);
        }
        Ok(rest)
    }

    /// Adds the branches of a choice.
    #[cycle(add)]
    #[inline(never)]
    fn add_choice(
        &mut self,
        alloc: Global,
        branches: &[Tree],
        beyond: usize,
    ) -> Result<Box<Ends>, AllocError>
        requires fits { positions (alt (map expression_of branches.now)) ≤ beyond }
        requires room { HasRoom beyond self.old }
        ensures { IfOk result
            (λ ends. IsAddedOf (alt (map expression_of branches.now)) beyond self.old self.new
            ends.value) }
    {
        let mut rest = Ends::blank(alloc, self.width, beyond, Empty::nowhere())?;
        let mut left = branches.len();
        'branches: while left > 0 {
            left -= 1;
            let Ok(part) = self.add(alloc, &branches[left], rest.begins) else {
                return Err(Ends::out_of_memory(rest));
            };
            rest = Ends::either(part, rest);
        }
        Ok(rest)
    }

    /// Adds a part that is repeated from `least` to `most` times. One that never holds keeps the
    /// numbers of its copies.
    #[cycle(add)]
    #[inline(never)]
    fn add_bounded(
        &mut self,
        alloc: Global,
        part: &Tree,
        least: usize,
        most: usize,
        beyond: usize,
    ) -> Result<Box<Ends>, AllocError>
        requires fits { most * positions (expression_of part.now) ≤ beyond }
        requires small { most < 65536 }
        requires room { HasRoom beyond self.old }
        ensures { IfOk result
            (λ ends. IsAddedOf (repeat (expression_of part.now) least (Some most)) beyond self.old
            self.new ends.value) }
    {
        let size = position_count(part);
        if most < least {
            return Ends::blank(alloc, self.width, beyond - most * size, Empty::nowhere());
        }
        if size == 0 {
            return self.add_once(alloc, part, least, beyond);
        }
        self.add_turns(alloc, part, least, Some(most - least), beyond)
    }

    /// Adds a part that is repeated `least` times or more.
    #[cycle(add)]
    #[inline(never)]
    fn add_unbounded(
        &mut self,
        alloc: Global,
        part: &Tree,
        least: usize,
        beyond: usize,
    ) -> Result<Box<Ends>, AllocError>
        requires fits { max least 1 * positions (expression_of part.now) ≤ beyond }
        requires room { HasRoom beyond self.old }
        ensures { IfOk result
            (λ ends. IsAddedOf (repeat (expression_of part.now) least None) beyond self.old self.new
            ends.value) }
    {
        if position_count(part) == 0 {
            return self.add_once(alloc, part, least, beyond);
        }
        if least == 0 {
            let turns = self.add_turns(alloc, part, 0, None, beyond)?;
            return Ok(Ends::optional(turns));
        }
        self.add_turns(alloc, part, least - 1, None, beyond)
    }

    /// Adds a part without positions, repeated any number of times: its turns are all on the empty
    /// stretch.
    #[cycle(add)]
    #[inline(never)]
    fn add_once(
        &mut self,
        alloc: Global,
        part: &Tree,
        least: usize,
        beyond: usize,
    ) -> Result<Box<Ends>, AllocError>
        requires none { positions (expression_of part.now) ≡ 0 }
        requires room { HasRoom beyond self.old }
        ensures { IfOk result
            (λ ends. IsOnce (expression_of part.now) least beyond self.old self.new ends.value) }
    {
        let once = self.add(alloc, part, beyond)?;
        if least == 0 {
            return Ok(Ends::optional(once));
        }
        Ok(once)
    }

    /// Adds `turns` copies of a part, and a tail: up to the given number of further copies, or
    /// where there is no bound the part again and again.
    #[cycle(add)]
    #[inline(never)]
    fn add_turns(
        &mut self,
        alloc: Global,
        part: &Tree,
        turns: usize,
        tail: Option<usize>,
        beyond: usize,
    ) -> Result<Box<Ends>, AllocError>
        requires fits { turns * positions (expression_of part.now) +
            tail_copies tail * positions (expression_of part.now) ≤ beyond }
        requires room { HasRoom beyond self.old }
        ensures { IfOk result
            (λ ends. AreTurns (expression_of part.now) turns tail beyond self.old self.new
            ends.value) }
    {
        let mut rest = self.add_tail(alloc, part, tail, beyond)?;
        'turns: for _turn in 0..turns {
            let Ok(copy) = self.add(alloc, part, rest.begins) else {
                return Err(Ends::out_of_memory(rest));
            };
            rest = self.in_turn(copy, rest);
        }
        Ok(rest)
    }

    /// Adds the tail of a repeated part.
    #[cycle(add)]
    #[inline(never)]
    fn add_tail(
        &mut self,
        alloc: Global,
        part: &Tree,
        tail: Option<usize>,
        beyond: usize,
    ) -> Result<Box<Ends>, AllocError>
        requires fits { tail_copies tail * positions (expression_of part.now) ≤ beyond }
        requires room { HasRoom beyond self.old }
        ensures { IfOk result
            (λ ends. IsTail (expression_of part.now) tail beyond self.old self.new ends.value) }
    {
        match tail {
            Some(turns) => self.add_up_to(alloc, part, turns, beyond),
            None => {
                let copy = self.add(alloc, part, beyond)?;
                self.again(&copy);
                Ok(copy)
            }
        }
    }

    /// Adds up to `turns` copies: each may be left out with those after it.
    #[cycle(add)]
    #[inline(never)]
    fn add_up_to(
        &mut self,
        alloc: Global,
        part: &Tree,
        turns: usize,
        beyond: usize,
    ) -> Result<Box<Ends>, AllocError>
        requires fits { turns * positions (expression_of part.now) ≤ beyond }
        requires room { HasRoom beyond self.old }
        ensures { IfOk result
            (λ ends. AreUpTo (expression_of part.now) turns beyond self.old self.new ends.value) }
    {
        let mut rest = Ends::blank(alloc, self.width, beyond, Empty::anywhere())?;
        'turns: for _turn in 0..turns {
            let Ok(copy) = self.add(alloc, part, rest.begins) else {
                return Err(Ends::out_of_memory(rest));
            };
            rest = Ends::optional(self.in_turn(copy, rest));
        }
        Ok(rest)
    }

    /// Adds one position, which takes the bytes in the set or those outside it.
    #[inline(never)]
    fn add_position(
        &mut self,
        alloc: Global,
        set: &ByteSet,
        wanted: bool,
        beyond: usize,
    ) -> Result<Box<Ends>, AllocError>
        requires fits { 0 < beyond }
        requires room { HasRoom beyond self.old }
        ensures { IfOk result
            (λ ends. IsAdded (wanted_position set.now wanted) 1 beyond self.old self.new
            ends.value) }
    {
        let ends = Ends::one(alloc, self.width, beyond - 1)?;
        self.take(set, wanted, beyond - 1);
        Ok(ends)
    }
}
