//! Lists in one list.
ghost use Rattle.std.specs.Prelude.{[], replicate, ◌∷◌, ◌<◌, get_or, ◌+◌, ◌-◌, IfOk, ◌++◌, OnErr};
ghost use Rattle.std.specs.Prelude.{nat_eq, take, length, ◌^◌, ◌≤◌, slice_range, map, ℕ, drop, ◌≡◌};
ghost use Rattle.std.specs.Prelude.{if◌then◌else◌};
ghost use Rattle.line_finds.specs.Working.Pieces.{all_items};

use re_trees::Span;
use std::alloc::{AllocError, Global};
use std::marker::Model;

/// Lists one after the other, with the place where each begins. It is seen as the list of them.
#[derive(Drop)]
pub struct Pieces<T> {
    items: Vec<T>,
    starts: Vec<u32>,
}

impl<T> Model for Pieces<T> {
    ghost use Rattle.std.specs.Prelude.{List};
    ghost use Rattle.std.specs.Coded.{coded_list};
    ghost use Rattle.line_finds.specs.Working.Pieces.{cut, AreLists};

    ghost Value = { List (List T) };

    ghost coded = { coded_list (coded_list T.code) };

    ghost view = { λ pieces. cut pieces.starts.items pieces.items.items };

    ghost invariant = { λ pieces.
        AreLists (cut pieces.starts.items pieces.items.items) pieces.items.items pieces.starts.items };
}

/// A list of spans for each of the first lines of a chunk. Later lines have none.
pub type SpanLists = Pieces<Span>;

/// The items from `start` up to `end`.
fn part<T>(items: &[T], start: usize, end: usize) -> &[T]
    requires in_order { start ≤ end }
    requires within { end ≤ length items.now }
    ensures { result.now ≡ slice_range items.now start end }
{
    &items[start..end]
}

/// Adds the first items and the last one.
fn add_items<T: Copy>(items: &mut Vec<T>, first: &[T], last: T) -> Result<(), AllocError>
    ensures ok { IfOk result (λ _. items.new.items ≡ items.old.items ++ (first.now ++ last ∷ [])) }
    ensures err { OnErr result (items.new.items ≡ items.old.items) }
{
    let before = items.len();
    items.extend_from_slice(first)?;
    if items.push(last).is_err() {
        items.truncate(before);
        return Err(AllocError);
    }
    Ok(())
}

/// Adds the place that is `by` after `at`.
fn add_start(starts: &mut Vec<u32>, at: usize, by: usize) -> Result<(), AllocError>
    ensures ok { IfOk result (λ _. starts.new.items ≡ starts.old.items ++ (by + at) ∷ []) }
    ensures err { OnErr result (starts.new.items ≡ starts.old.items) }
{
    let Ok(start) = u32::try_from(by.saturating_add(at)) else {
        return Err(AllocError);
    };
    starts.push(start)?;
    Ok(())
}

/// Adds these places, of which `start` becomes `at`.
fn add_starts(
    starts: &mut Vec<u32>,
    others: &[u32],
    start: usize,
    at: usize,
) -> Result<(), AllocError>
    ensures ok { IfOk result (λ _.
        starts.new.items ≡ starts.old.items ++ map (λ other. other - start + at) others.now) }
    ensures err { OnErr result (starts.new.items ≡ starts.old.items) }
{
    let before = starts.len();
    for other in others {
        if add_start(starts, at, (*other as usize).saturating_sub(start)).is_err() {
            starts.truncate(before);
            return Err(AllocError);
        }
    }
    Ok(())
}

/// Makes each place smaller.
fn lower(starts: &mut [u32], by: usize)
    ensures { starts.new ≡ map (λ start. start - by) starts.old }
{
    for start in starts.iter_mut() {
        *start = (*start as usize).saturating_sub(by) as u32;
    }
}

/// Removes the places from `from` up to `to`, after which the items are then `by` fewer.
fn remove_starts(starts: &mut Vec<u32>, from: usize, to: usize, by: usize)
    requires in_order { from ≤ to }
    requires within { to ≤ length starts.old.items }
    ensures { starts.new.items ≡
        take from starts.old.items ++ map (λ start. start - by) (drop to starts.old.items) }
{
    starts.drain(from..to);
    lower(&mut starts[from..], by);
}

impl<T> Pieces<T> {
    /// No list.
    pub fn new(alloc: Global) -> Pieces<T>
        ensures { result ≡ [] }
    {
        Pieces {
            items: Vec::new(alloc),
            starts: Vec::new(alloc),
        }
    }

    /// No list, with room for so many items.
    pub fn with_room(alloc: Global, items: usize) -> Result<Pieces<T>, AllocError>
        ensures { IfOk result (λ pieces. pieces ≡ []) }
    {
        let items = Vec::with_capacity(alloc, items)?;
        Ok(Pieces {
            items,
            starts: Vec::new(alloc),
        })
    }

    /// The number of lists.
    pub fn len(&self) -> usize
        ensures { result ≡ length self.now }
    {
        self.starts.len()
    }

    /// The lists one after the other.
    pub fn all(&self) -> &[T]
        ensures { result.now ≡ all_items self.now }
    {
        &self.items
    }

    /// Where list `k` begins among all items, or where the last list ends.
    pub fn start(&self, k: usize) -> usize
        ensures start { result ≡ length (all_items (take k self.now)) }
        ensures fits { length (all_items self.now) < 2 ^ 64 }
    {
        if k < self.starts.len() {
            return self.starts[k] as usize;
        }
        self.items.len()
    }

    /// List `k`, which is empty after the last one.
    pub fn at(&self, k: usize) -> &[T]
        ensures { result.now ≡ get_or self.now k [] }
    {
        if k >= self.len() {
            return &[];
        }
        part(&self.items, self.start(k), self.start(k + 1))
    }

    /// Removes the lists from `from` up to `to`. Nothing is allocated.
    pub fn remove(&mut self, from: usize, to: usize)
    where
        T: Drop,
        requires { from ≤ to }
        ensures { self.new ≡ take from self.old ++ drop to self.old }
    {
        let count = self.len();
        let from = from.min(count);
        let to = to.min(count);
        let start = self.start(from);
        let end = self.start(to);
        self.items.drain(start..end);
        remove_starts(&mut self.starts, from, to, end - start);
    }
}

impl<T: Copy> Pieces<T> {
    /// Adds empty lists until there are `k`. A list that would begin at item 2^32 is refused as out of
    /// memory.
    fn fill(&mut self, k: usize) -> Result<(), AllocError>
        requires { length self.old ≤ k }
        ensures ok { IfOk result
            (λ _. self.new ≡ self.old ++ replicate (k - length self.old) []) }
        ensures err { OnErr result (self.new ≡ self.old) }
    {
        let Ok(start) = u32::try_from(self.items.len()) else {
            return Err(AllocError);
        };
        self.starts.resize(k, start)?;
        Ok(())
    }

    /// Adds a list of the first items and the last one. A list that would begin at item 2^32 is
    /// refused as out of memory.
    pub fn push(&mut self, first: &[T], last: T) -> Result<(), AllocError>
        ensures ok { IfOk result (λ _. self.new ≡ self.old ++ (first.now ++ last ∷ []) ∷ []) }
        ensures err { OnErr result (self.new ≡ self.old) }
    {
        let before = self.items.len();
        add_items(&mut self.items, first, last)?;
        if add_start(&mut self.starts, before, 0).is_err() {
            self.items.truncate(before);
            return Err(AllocError);
        }
        Ok(())
    }

    /// Adds the lists of another from `from` up to `to`. After a refusal the lists are as they were.
    pub fn add_part(&mut self, other: &Pieces<T>, from: usize, to: usize) -> Result<(), AllocError>
        requires in_order { from ≤ to }
        requires within { to ≤ length other.now }
        ensures ok { IfOk result (λ _. self.new ≡ self.old ++ slice_range other.now from to) }
        ensures err { OnErr result (self.new ≡ self.old) }
    {
        let start = other.start(from);
        let end = other.start(to);
        let before = self.items.len();
        self.items
            .extend_from_slice(part(&other.items, start, end))?;
        let starts = part(&other.starts, from, to);
        if add_starts(&mut self.starts, starts, start, before).is_err() {
            self.items.truncate(before);
            return Err(AllocError);
        }
        Ok(())
    }

    /// Sets the list of line `k`, which is after those that have lists. It allocates only if the
    /// list is not empty. After a refusal each line has the list that it had.
    pub fn put(&mut self, k: usize, list: &[T]) -> Result<(), AllocError>
        requires { length self.old ≤ k }
        ensures put { IfOk result (λ _. (i : ℕ) →
            get_or self.new i [] ≡ (if nat_eq i k then list.now else get_or self.old i [])) }
        ensures within { IfOk result (λ _. length self.new ≤ k + 1) }
        ensures none { list.now ≡ [] → self.new ≡ self.old }
        ensures same { OnErr result ((i : ℕ) → get_or self.new i [] ≡ get_or self.old i []) }
        ensures few { OnErr result (length self.new ≤ k) }
    {
        let Some((last, first)) = list.split_last() else {
            return Ok(());
        };
        self.fill(k)?;
        self.push(first, *last)?;
        Ok(())
    }
}
