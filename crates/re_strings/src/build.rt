//! The table of the steps for many fixed strings.
ghost use Rattle.std.specs.Prelude.{◌≡◌, ℕ, ◌^◌, ◌<◌, ◌≤◌, List, IfOk, length, map, slice_index};
ghost use Rattle.{re_trees.specs.Bytes.Text, re_strings.specs.Working.FixedSets.IsTable};
ghost use Rattle.re_strings.specs.Working.FixedSets.{IsTableOf, IsTrie, IsTrieOf, AreOwn, Labels};
ghost use Rattle.re_strings.specs.Working.Branches.{AreAscending, branch_at, own_length, HaveSame};

use crate::aho_corasick::AhoCorasick;
use crate::growth::{Branch, grow};
use crate::leaps::{leaps_of, window_of};
use crate::links::links_of;
use crate::step_rows::{starts_of, steps_of};
use crate::trie::Trie;
use std::alloc::{AllocError, Global};

// The nodes, and the length of each that is a string, 0 for others.
#[derive(Drop)]
struct Nodes {
    trie: Trie,
    owns: Vec<u32>,
}

/// The table for these strings, which are in order. With `fold`, both cases of each letter of a
/// line are alike. The errors are that an allocation failed, or that the strings have 2^32
/// beginnings or more.
pub fn table_of(alloc: Global, strings: &[&[u8]], fold: bool) -> Result<AhoCorasick, AllocError>
    requires { AreAscending (map (λ s. s.now) strings.now) }
    ensures table { IfOk result IsTable }
    ensures fold { IfOk result (λ t. t.fold ≡ fold) }
    ensures right { IfOk result
        (λ t. (texts : List Text) → HaveSame (map (λ s. s.now) strings.now) texts
        → (label : ℕ → Text) × IsTableOf (record { strings = texts; label = label }) t) }
{
    let nodes = nodes_of(alloc, strings)?;
    let trie = nodes.trie;
    let owns = nodes.owns;
    let starts = starts_of(alloc, &trie)?;
    let links = links_of(alloc, &trie, &starts, &owns)?;
    drop(owns);
    let steps = steps_of(&trie, starts, &links.fails)?;
    let depths = depths_of(alloc, &trie)?;
    let window = window_of(strings);
    let leaps = leaps_of(alloc, strings, window)?;
    let fronts = leaps_of(alloc, strings, window.min(2))?;
    Ok(AhoCorasick {
        trie,
        steps,
        fails: links.fails,
        depths,
        outputs: links.outputs,
        leaps,
        fronts,
        fold,
    })
}

// The nodes for these strings, which are in order. The beginnings that they are made from take more
// room than they do, and are freed before the table's other columns are made.
fn nodes_of(alloc: Global, strings: &[&[u8]]) -> Result<Nodes, AllocError>
    requires { AreAscending (map (λ s. s.now) strings.now) }
    ensures trie { IfOk result (λ nodes. IsTrie nodes.trie.first.items nodes.trie.bytes.items) }
    ensures few { IfOk result (λ nodes. length nodes.trie.bytes.items < 2 ^ 32) }
    ensures owns { IfOk result (λ nodes. length nodes.owns.items ≡ length nodes.trie.bytes.items) }
    ensures right { IfOk result
        (λ nodes. (texts : List Text) → HaveSame (map (λ s. s.now) strings.now) texts
        → (label : ℕ → Text) ×
        IsTrieOf (record { strings = texts; label = label }) nodes.trie.first.items
        nodes.trie.bytes.items
        × AreOwn (record { strings = texts; label = label }) nodes.owns.items) }
{
    let growth = grow(alloc, strings)?;
    let owns = owns_of(alloc, strings, &growth.branches)?;
    let bytes = bytes_of(alloc, &growth.branches)?;
    let first = growth.first;
    let trie = Trie { first, bytes };
    Ok(Nodes { trie, owns })
}

// The last byte of each branch.
fn bytes_of(alloc: Global, branches: &[Branch]) -> Result<Vec<u8>, AllocError>
    ensures all { IfOk result (λ bytes. length bytes.items ≡ length branches.now) }
    ensures each { IfOk result
        (λ bytes. (n : ℕ) → n < length branches.now →
        slice_index bytes.items n ≡ (branch_at branches.now n).byte) }
{
    let mut bytes = Vec::with_capacity(alloc, branches.len())?;
    'places: for place in 0..branches.len() {
        bytes.push(branches[place].byte)?;
    }
    Ok(bytes)
}

// The length of each branch that is a string, 0 for others.
fn owns_of(alloc: Global, strings: &[&[u8]], branches: &[Branch]) -> Result<Vec<u32>, AllocError>
    ensures all { IfOk result (λ owns. length owns.items ≡ length branches.now) }
    ensures each { IfOk result
        (λ owns. (n : ℕ) → n < length branches.now →
        slice_index owns.items n ≡
        own_length (map (λ s. s.now) strings.now) (branch_at branches.now n)) }
{
    let mut owns = Vec::with_capacity(alloc, branches.len())?;
    'places: for place in 0..branches.len() {
        owns.push(own_of(strings, branches[place]))?;
    }
    Ok(owns)
}

// The length of a branch that is a string, 0 for another.
fn own_of(strings: &[&[u8]], branch: Branch) -> u32
    ensures { result ≡ own_length (map (λ s. s.now) strings.now) branch }
{
    let low = branch.low as usize;
    if low >= strings.len() {
        return 0;
    }
    if strings[low].len() == branch.depth as usize {
        branch.depth
    } else {
        0
    }
}

// The length of each node, which is one more than that of its parent.
fn depths_of(alloc: Global, trie: &Trie) -> Result<Vec<u32>, AllocError>
    requires trie { IsTrie trie.now.first.items trie.now.bytes.items }
    requires few { length trie.now.bytes.items < 2 ^ 32 }
    ensures all { IfOk result (λ depths. length depths.items ≡ length trie.now.bytes.items) }
    ensures right { IfOk result
        (λ depths. (all : Labels) → IsTrieOf all trie.now.first.items trie.now.bytes.items
        → (n : ℕ) → n < length trie.now.bytes.items →
        slice_index depths.items n ≡ length (all.label n)) }
{
    let mut depths = Vec::with_capacity(alloc, trie.bytes.len())?;
    depths.push(0)?;
    'nodes: for node in 0..trie.bytes.len() {
        let depth = depths[node] + 1;
        add_depths(&mut depths, depth, trie.first[node + 1] as usize)?;
    }
    Ok(depths)
}

// Adds this length for each node before `end` that has none.
fn add_depths(depths: &mut Vec<u32>, depth: u32, end: usize) -> Result<(), AllocError>
    requires { length depths.old.items ≤ end }
    ensures all { IfOk result (λ _. length depths.new.items ≡ end) }
    ensures same { IfOk result
        (λ _. (n : ℕ) → n < length depths.old.items →
        slice_index depths.new.items n ≡ slice_index depths.old.items n) }
    ensures added { IfOk result
        (λ _. (n : ℕ) → length depths.old.items ≤ n → n < end →
        slice_index depths.new.items n ≡ depth) }
{
    'nodes: while depths.len() < end {
        depths.push(depth)?;
    }
    Ok(())
}
