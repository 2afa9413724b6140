//! The ends of a part of an expression: what its neighbours use of it.
ghost use Rattle.std.specs.Prelude.{◌≡◌, ℕ, ◌<◌, ◌*◌, ◌↔◌, ◌⊎◌, IsTrue, IfOk, length};
ghost use Rattle.re_auto.specs.Working.PartTables.{IsBlank, Shows, IsSet, shown, IsOne, HasWidth};
ghost use Rattle.re_auto.specs.Working.{Bits.Has, Positions.{either, in_turn, optional}};

use crate::bits;
use crate::tables::Empty;
use std::alloc::{AllocError, Global};

/// The positions that a part of an expression can begin and end with, as sets of words of bits, and
/// where it may be empty.
#[derive(Drop)]
pub struct Ends {
    /// The number of the part's first position.
    pub begins: usize,
    /// The positions that a stretch can begin with at the line's first place.
    pub first_at_begin: Vec<u64>,
    /// The positions that a stretch can begin with at any other place.
    pub first_inside: Vec<u64>,
    /// The positions that a stretch can end with at the line's last place.
    pub last_at_end: Vec<u64>,
    /// The positions that a stretch can end with at any other place.
    pub last_inside: Vec<u64>,
    /// Where the part holds on the empty stretch.
    pub empty: Empty,
}

impl Ends {
    /// The ends of a part without positions, from a number on.
    #[inline(never)]
    pub fn blank(
        alloc: Global,
        width: usize,
        begins: usize,
        empty: Empty,
    ) -> Result<Box<Ends>, AllocError>
        ensures { IfOk result (λ ends. IsBlank width begins empty ends.value) }
    {
        let ends = Ends {
            begins,
            first_at_begin: blank_set(alloc, width)?,
            first_inside: blank_set(alloc, width)?,
            last_at_end: blank_set(alloc, width)?,
            last_inside: blank_set(alloc, width)?,
            empty,
        };
        Ok(Box::new(alloc, ends)?)
    }

    /// The ends of one position.
    pub fn one(alloc: Global, width: usize, position: usize) -> Result<Box<Ends>, AllocError>
        requires { position < width * 64 }
        ensures { IfOk result (λ ends. IsOne width position ends.value) }
    {
        let ends = Ends::of_position(alloc, width, position)?;
        Ok(Box::new(alloc, ends)?)
    }

    // The same, without a box.
    fn of_position(alloc: Global, width: usize, position: usize) -> Result<Ends, AllocError>
        requires { position < width * 64 }
        ensures { IfOk result (IsOne width position) }
    {
        Ok(Ends {
            begins: position,
            first_at_begin: one_member(alloc, width, position)?,
            first_inside: one_member(alloc, width, position)?,
            last_at_end: one_member(alloc, width, position)?,
            last_inside: one_member(alloc, width, position)?,
            empty: Empty::nowhere(),
        })
    }

    /// The ends of a part that may be left out.
    #[inline(never)]
    pub fn optional(part: Box<Ends>) -> Box<Ends>
        requires { HasWidth (length part.value.first_inside.items) part.value }
        ensures begins { result.value.begins ≡ part.value.begins }
        ensures shows { Shows (optional (shown part.value)) (length part.value.first_inside.items)
            result.value }
    {
        let mut ends = part;
        ends.be_optional();
        ends
    }

    // Adds that the part may be left out.
    fn be_optional(&mut self)
        requires { HasWidth (length self.old.first_inside.items) self.old }
        ensures begins { self.new.begins ≡ self.old.begins }
        ensures shows { Shows (optional (shown self.old)) (length self.old.first_inside.items)
            self.new }
    {
        self.empty = Empty::anywhere();
    }

    /// The ends of two parts in turn.
    pub fn in_turn(part: Box<Ends>, rest: Box<Ends>) -> Box<Ends>
        requires left { HasWidth (length part.value.first_inside.items) part.value }
        requires right { HasWidth (length part.value.first_inside.items) rest.value }
        ensures begins { result.value.begins ≡ part.value.begins }
        ensures shows { Shows (in_turn (shown part.value) (shown rest.value))
            (length part.value.first_inside.items) result.value }
    {
        let mut ends = part;
        let rest = Box::into_inner(rest);
        ends.add_after(rest);
        ends
    }

    // Adds what comes after the part, whose ends these are.
    fn add_after(&mut self, rest: Ends)
        requires left { HasWidth (length self.old.first_inside.items) self.old }
        requires right { HasWidth (length self.old.first_inside.items) rest }
        ensures begins { self.new.begins ≡ self.old.begins }
        ensures shows { Shows (in_turn (shown self.old) (shown rest))
            (length self.old.first_inside.items) self.new }
    {
        let mut last_at_end = rest.last_at_end;
        let mut last_inside = rest.last_inside;
        add_if(
            &mut self.first_at_begin,
            &rest.first_at_begin,
            self.empty.at_begin,
        );
        add_if(
            &mut self.first_inside,
            &rest.first_inside,
            self.empty.inside,
        );
        add_if(&mut last_at_end, &self.last_at_end, rest.empty.at_end);
        add_if(&mut last_inside, &self.last_inside, rest.empty.inside);
        self.last_at_end = last_at_end;
        self.last_inside = last_inside;
        self.empty = self.empty.and(rest.empty);
    }

    /// The ends of a choice between two parts.
    #[inline(never)]
    pub fn either(part: Box<Ends>, rest: Box<Ends>) -> Box<Ends>
        requires left { HasWidth (length part.value.first_inside.items) part.value }
        requires right { HasWidth (length part.value.first_inside.items) rest.value }
        ensures begins { result.value.begins ≡ part.value.begins }
        ensures shows { Shows (either (shown part.value) (shown rest.value))
            (length part.value.first_inside.items) result.value }
    {
        let mut ends = part;
        ends.add_other(&rest);
        ends
    }

    // Adds the other branches of a choice, the first of which has these ends.
    fn add_other(&mut self, rest: &Ends)
        requires left { HasWidth (length self.old.first_inside.items) self.old }
        requires right { HasWidth (length self.old.first_inside.items) rest.now }
        ensures begins { self.new.begins ≡ self.old.begins }
        ensures shows { Shows (either (shown self.old) (shown rest.now))
            (length self.old.first_inside.items) self.new }
    {
        add_set(&mut self.first_at_begin, &rest.first_at_begin);
        add_set(&mut self.first_inside, &rest.first_inside);
        add_set(&mut self.last_at_end, &rest.last_at_end);
        add_set(&mut self.last_inside, &rest.last_inside);
        self.empty = self.empty.or(rest.empty);
    }

    /// Drops the ends where memory ran out, and returns that error.
    #[inline(never)]
    pub fn out_of_memory(ends: Box<Ends>) -> AllocError {
        drop(ends);
        AllocError
    }
}

/// A set without members, of `width` words.
pub fn blank_set(alloc: Global, width: usize) -> Result<Vec<u64>, AllocError>
    ensures { IfOk result (IsSet (λ q. ⊥) width) }
{
    vec![in alloc; 0; width]
}

// The set of one number.
fn one_member(alloc: Global, width: usize, member: usize) -> Result<Vec<u64>, AllocError>
    requires { member < width * 64 }
    ensures { IfOk result (IsSet (λ q. q ≡ member) width) }
{
    let mut set = blank_set(alloc, width)?;
    bits::insert(&mut set, member);
    Ok(set)
}

// Adds the members of `row` where `wanted` is set.
fn add_if(into: &mut Vec<u64>, row: &Vec<u64>, wanted: bool)
    requires same { length into.old.items ≡ length row.now.items }
    ensures len { length into.new.items ≡ length into.old.items }
    ensures added { (q : ℕ) →
        Has into.new.items q ↔ (Has into.old.items q ⊎ IsTrue wanted × Has row.now.items q) }
{
    if wanted {
        add_set(into, row);
    }
}

// Adds the members of `row`.
fn add_set(into: &mut Vec<u64>, row: &Vec<u64>)
    requires same { length into.old.items ≡ length row.now.items }
    ensures len { length into.new.items ≡ length into.old.items }
    ensures added { (q : ℕ) → Has into.new.items q ↔ (Has into.old.items q ⊎ Has row.now.items q) }
{
    bits::add(into, row);
}
