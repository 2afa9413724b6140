//! The tree of the beginnings of sorted strings.
ghost use Rattle.std.specs.Prelude.{◌≡◌, ℕ, ◌+◌, ◌^◌, ◌<◌, ◌≤◌, ◌++◌, [], ◌∷◌, List, All, IfOk};
ghost use Rattle.std.specs.Prelude.{IfSome, length, map, slice_get};
ghost use Rattle.re_strings.specs.{declared.growth.Branch.Branch, Working.Branches.AreAscending};
ghost use Rattle.re_strings.specs.Working.Branches.{IsBranch, IsRow, AreRows, branch_at, text_at};

use std::alloc::{AllocError, Global};

/// A beginning of some strings, which are next to each other, since the strings are in order.
#[derive(Clone, Copy, Drop)]
pub struct Branch {
    /// Its last byte; any value if it is empty.
    pub byte: u8,
    /// How many bytes it has.
    pub depth: u32,
    /// The first string that begins with it.
    pub low: u32,
    /// The place after the last.
    pub high: u32,
}

/// All beginnings of sorted strings, shorter ones first.
#[derive(Drop)]
pub struct Growth {
    /// The beginnings.
    pub branches: Vec<Branch>,
    /// For each the place of the first that has one byte more, and one entry more.
    pub first: Vec<u32>,
}

/// The beginnings of these strings, which are in order. The errors are that an allocation failed,
/// or that there are more than 2^32 - 1 beginnings.
pub fn grow(alloc: Global, strings: &[&[u8]]) -> Result<Growth, AllocError>
    requires { AreAscending (map (λ s. s.now) strings.now) }
    ensures rows { IfOk result
        (λ g.
        AreRows (map (λ s. s.now) strings.now) g.branches.items g.first.items
        (length g.branches.items)) }
    ensures few { IfOk result (λ g. length g.branches.items < 2 ^ 32) }
{
    let count = count_of(strings);
    let mut branches = Vec::with_capacity(alloc, count)?;
    add_branch(&mut branches, 0, 0, 0, strings.len())?;
    let mut first = Vec::with_capacity(alloc, count.saturating_add(1))?;
    add_entry(&mut first, 1)?;
    let mut node = 0;
    'nodes: while node < branches.len() {
        expand(strings, &mut branches, node)?;
        add_entry(&mut first, branches.len())?;
        node += 1;
    }
    Ok(Growth { branches, first })
}

// How many beginnings the strings have, which are in order. It says how much room to make at once,
// and no contract depends on it.
fn count_of(strings: &[&[u8]]) -> usize {
    let mut count = 1_usize;
    'places: for place in 0..strings.len() {
        count = count.saturating_add(added_by(strings, place));
    }
    count
}

// How many bytes of a string follow those that it shares with the string before it.
fn added_by(strings: &[&[u8]], place: usize) -> usize
    requires { place < length strings.now }
{
    let string = strings[place];
    if place == 0 {
        return string.len();
    }
    string.len() - shared(strings[place - 1], string)
}

// How many bytes both texts begin with.
fn shared(before: &[u8], text: &[u8]) -> usize
    ensures { result ≤ length text.now }
{
    let end = before.len().min(text.len());
    'places: for place in 0..end {
        if before[place] != text[place] {
            return place;
        }
    }
    end
}

fn add_entry(first: &mut Vec<u32>, place: usize) -> Result<(), AllocError>
    ensures added { IfOk result (λ _. first.new.items ≡ first.old.items ++ place ∷ []) }
    ensures few { IfOk result (λ _. place < 2 ^ 32) }
{
    let place = number(place)?;
    first.push(place)?;
    Ok(())
}

// Adds the beginnings that have one byte more than this one.
fn expand(strings: &[&[u8]], branches: &mut Vec<Branch>, node: usize) -> Result<(), AllocError>
    requires ordered { AreAscending (map (λ s. s.now) strings.now) }
    requires are { All (IsBranch (map (λ s. s.now) strings.now)) branches.old.items }
    requires within { node < length branches.old.items }
    ensures grown { IfOk result
        (λ _. (more : List Branch) × (branches.new.items ≡ branches.old.items ++ more)) }
    ensures are { IfOk result
        (λ _. All (IsBranch (map (λ s. s.now) strings.now)) branches.new.items) }
    ensures row { IfOk result
        (λ _.
        IsRow (map (λ s. s.now) strings.now) branches.new.items (branch_at branches.old.items node)
        (length branches.old.items) (length branches.new.items)) }
{
    let branch = branches[node];
    let depth = branch.depth as usize;
    let high = branch.high as usize;
    let mut at = branch.low as usize;
    'runs: while at < high {
        let key = key_at(strings, at, depth);
        let end = run_end(strings, at, high, depth, key);
        if let Some(byte) = key {
            add_branch(branches, byte, depth + 1, at, end)?;
        }
        at = end;
    }
    Ok(())
}

fn add_branch(
    branches: &mut Vec<Branch>,
    byte: u8,
    depth: usize,
    low: usize,
    high: usize,
) -> Result<(), AllocError>
    ensures { IfOk result
        (λ _. branches.new.items ≡ branches.old.items ++
        record { byte = byte; depth = depth; low = low; high = high } ∷ []) }
{
    let depth = number(depth)?;
    let low = number(low)?;
    let high = number(high)?;
    branches.push(Branch {
        byte,
        depth,
        low,
        high,
    })?;
    Ok(())
}

// The byte at a place of a string; none at its end.
fn key_at(strings: &[&[u8]], place: usize, depth: usize) -> Option<u8>
    requires { place < length strings.now }
    ensures reported { result ≡ slice_get (text_at (map (λ s. s.now) strings.now) place) depth }
    ensures within { IfSome result
        (λ _. depth < length (text_at (map (λ s. s.now) strings.now) place)) }
{
    let string = strings[place];
    if depth < string.len() {
        return Some(string[depth]);
    }
    None
}

// The place after the strings that have this byte there.
fn run_end(strings: &[&[u8]], at: usize, high: usize, depth: usize, key: Option<u8>) -> usize
    requires within { at < high }
    requires in_strings { high ≤ length strings.now }
    ensures within { (at < result) × (result ≤ high) }
    ensures same { (i : ℕ) → at < i → i < result →
        slice_get (text_at (map (λ s. s.now) strings.now) i) depth ≡ key }
    ensures other { result < high →
        slice_get (text_at (map (λ s. s.now) strings.now) result) depth ≡ key → ⊥ }
{
    'places: for end in at + 1..high {
        if key_at(strings, end, depth) != key {
            return end;
        }
    }
    high
}

// The number in 32 bits; a greater one would need more memory than there is.
fn number(n: usize) -> Result<u32, AllocError>
    ensures same { IfOk result (λ m. m ≡ n) }
    ensures few { IfOk result (λ _. n < 2 ^ 32) }
{
    match u32::try_from(n) {
        Ok(n) => Ok(n),
        Err(_) => Err(AllocError),
    }
}
