//! The fallbacks of the nodes, and the strings that they end with.
ghost use Rattle.std.specs.Prelude.{◌≡◌, ℕ, ◌+◌, ◌^◌, ◌<◌, ◌≤◌, ◌++◌, [], ◌∷◌, IfOk, length};
ghost use Rattle.std.specs.Prelude.{slice_index};
ghost use Rattle.re_strings.specs.Working.FixedSets.{AreSteps, AreFallbacksOf, IsTrieOf};
ghost use Rattle.re_strings.specs.Working.FixedSets.{AreLinked, AreStepsOf, Labels, own_or, IsTrie};
ghost use Rattle.re_strings.specs.Working.FixedSets.{AreLinkedFor, AreFallbacks, StandsFor, AreOwn};

use crate::aho_corasick::step;
use crate::step_rows::StepRows;
use crate::trie::Trie;
use std::alloc::{AllocError, Global};

/// For each node its fallback, and the longest string that it ends with.
#[derive(Drop)]
pub struct Links {
    /// For each node the longest other one that it ends with; any value for the root.
    pub fails: Vec<u32>,
    /// The longest string, not the empty one, that each node ends with; the root if there is none.
    pub outputs: Vec<u32>,
}

/// The links of all nodes. `owns` has the length of each node that is a string, and 0 for others.
pub fn links_of(
    alloc: Global,
    trie: &Trie,
    starts: &StepRows,
    owns: &[u32],
) -> Result<Links, AllocError>
    requires trie { IsTrie trie.now.first.items trie.now.bytes.items }
    requires few { length trie.now.bytes.items < 2 ^ 32 }
    requires starts { AreSteps trie.now.first.items starts.now }
    requires owns { length owns.now ≡ length trie.now.bytes.items }
    ensures linked { IfOk result
        (λ links. AreLinked (length trie.now.bytes.items) links.fails.items links.outputs.items) }
    ensures right { IfOk result
        (λ links. (all : Labels) → IsTrieOf all trie.now.first.items trie.now.bytes.items →
        AreStepsOf all starts.now → AreOwn all owns.now
        → AreLinkedFor all links.fails.items links.outputs.items) }
{
    let mut fails = Vec::with_capacity(alloc, trie.bytes.len())?;
    push_number(&mut fails, 0)?;
    let mut outputs = Vec::with_capacity(alloc, trie.bytes.len())?;
    push_number(&mut outputs, 0)?;
    let mut links = Links { fails, outputs };
    'nodes: for node in 0..trie.bytes.len() {
        link_children(trie, starts, owns, node, &mut links)?;
    }
    Ok(links)
}

// Links the children of a node.
fn link_children(
    trie: &Trie,
    starts: &StepRows,
    owns: &[u32],
    node: usize,
    links: &mut Links,
) -> Result<(), AllocError>
    requires trie { IsTrie trie.now.first.items trie.now.bytes.items }
    requires few { length trie.now.bytes.items < 2 ^ 32 }
    requires starts { AreSteps trie.now.first.items starts.now }
    requires owns { length owns.now ≡ length trie.now.bytes.items }
    requires within { node < length trie.now.bytes.items }
    requires linked { AreLinked (slice_index trie.now.first.items node) links.old.fails.items
        links.old.outputs.items }
    ensures linked { IfOk result
        (λ _.
        AreLinked (slice_index trie.now.first.items (node + 1)) links.new.fails.items
        links.new.outputs.items) }
    ensures right { IfOk result
        (λ _. (all : Labels) → IsTrieOf all trie.now.first.items trie.now.bytes.items →
        AreStepsOf all starts.now → AreOwn all owns.now
        → AreLinkedFor all links.old.fails.items links.old.outputs.items →
        AreLinkedFor all links.new.fails.items links.new.outputs.items) }
{
    let end = trie.first[node + 1] as usize;
    'children: while links.fails.len() < end {
        let child = links.fails.len();
        let fail = fallback(trie, starts, &links.fails, node, trie.bytes[child]);
        let output = output_of(owns[child], child, links.outputs[fail]);
        add_link(links, fail, output)?;
    }
    Ok(())
}

// The fallback of a node's child that has this byte.
fn fallback(trie: &Trie, starts: &StepRows, fails: &[u32], node: usize, byte: u8) -> usize
    requires trie { IsTrie trie.now.first.items trie.now.bytes.items }
    requires small { length trie.now.bytes.items < 2 ^ 32 }
    requires starts { AreSteps trie.now.first.items starts.now }
    requires fails { AreFallbacks fails.now }
    requires few { length fails.now ≤ length trie.now.bytes.items }
    requires within { node < length fails.now }
    requires linked { slice_index trie.now.first.items node ≤ length fails.now }
    ensures before { result < slice_index trie.now.first.items node }
    ensures right { (all : Labels) → IsTrieOf all trie.now.first.items trie.now.bytes.items →
        AreStepsOf all starts.now → AreFallbacksOf all fails.now
        → StandsFor all.strings (all.label result) (all.label node ++ byte ∷ []) 1 }
{
    if node == 0 {
        return 0;
    }
    step(trie, starts, fails, fails[node] as usize, byte)
}

// The node itself if it is a string, which has a length; else what its fallback ends with.
fn output_of(own: u32, node: usize, output: u32) -> usize
    ensures { result ≡ own_or own node output }
{
    if own > 0 { node } else { output as usize }
}

fn add_link(links: &mut Links, fail: usize, output: usize) -> Result<(), AllocError>
    ensures { IfOk result
        (λ _. (links.new.fails.items ≡ links.old.fails.items ++ fail ∷ []) ×
        (links.new.outputs.items ≡ links.old.outputs.items ++ output ∷ [])) }
{
    push_number(&mut links.fails, fail)?;
    push_number(&mut links.outputs, output)?;
    Ok(())
}

/// Adds a number. The error is that an allocation failed, or that the number is too large.
pub fn push_number(numbers: &mut Vec<u32>, n: usize) -> Result<(), AllocError>
    ensures { IfOk result (λ _. numbers.new.items ≡ numbers.old.items ++ n ∷ []) }
{
    match u32::try_from(n) {
        Ok(m) => {
            numbers.push(m)?;
            Ok(())
        }
        Err(_) => Err(AllocError),
    }
}
