//! The steps at the first nodes of many fixed strings, by classes of bytes.
ghost use Rattle.std.specs.Prelude.{◌≡◌, ℕ, ◌+◌, ◌*◌, ◌/◌, ◌%◌, ◌^◌, ◌<◌, [], IfOk, length};
ghost use Rattle.std.specs.Prelude.{slice_index};
ghost use Rattle.re_strings.specs.Working.FixedSets.{AreClasses, AreFallbacks, AreFallbacksOf};
ghost use Rattle.re_strings.specs.Working.FixedSets.{AreSteps, AreStepsOf, IsTrie, IsTrieOf, Labels};
ghost use Rattle.re_strings.specs.Working.FixedSets.{StepsOn};

use crate::aho_corasick::step;
use crate::links::push_number;
use crate::trie::Trie;
use memchr::memchr;
use std::alloc::{AllocError, Global};

// How many cells there are at most.
const MOST_CELLS: usize = 131_072;

/// The node after each byte at the first nodes. The bytes that no string has are class 0, and each
/// other byte is a class.
#[derive(Drop)]
pub struct StepRows {
    /// The class of each byte.
    pub classes: Vec<u32>,
    /// The byte of each class; any value for class 0.
    pub bytes: Vec<u8>,
    /// A row of cells for each node, with the node after a byte of each class.
    pub cells: Vec<u32>,
}

/// The classes, and the steps at the root. The only error is that an allocation failed.
pub fn starts_of(alloc: Global, trie: &Trie) -> Result<StepRows, AllocError>
    requires trie { IsTrie trie.now.first.items trie.now.bytes.items }
    requires few { length trie.now.bytes.items < 2 ^ 32 }
    ensures classes { IfOk result (AreClasses trie.now.bytes.items) }
    ensures starts { IfOk result (AreSteps trie.now.first.items) }
    ensures right { IfOk result
        (λ starts. (all : Labels) → IsTrieOf all trie.now.first.items trie.now.bytes.items →
        AreStepsOf all starts) }
{
    let mut starts = classes_of(alloc, trie)?;
    'classes: while starts.cells.len() < starts.bytes.len() {
        let start = start_of(trie, &starts, starts.cells.len());
        push_number(&mut starts.cells, start)?;
    }
    Ok(starts)
}

/// The steps at the first nodes. `starts` has those at the root. The only error is that an allocation
/// failed.
pub fn steps_of(trie: &Trie, starts: StepRows, fails: &[u32]) -> Result<StepRows, AllocError>
    requires trie { IsTrie trie.now.first.items trie.now.bytes.items }
    requires few { length trie.now.bytes.items < 2 ^ 32 }
    requires classes { AreClasses trie.now.bytes.items starts }
    requires starts { AreSteps trie.now.first.items starts }
    requires fails { AreFallbacks fails.now }
    requires all { length fails.now ≡ length trie.now.bytes.items }
    ensures steps { IfOk result (AreSteps trie.now.first.items) }
    ensures right { IfOk result
        (λ steps. (all : Labels) → IsTrieOf all trie.now.first.items trie.now.bytes.items →
        AreStepsOf all starts → AreFallbacksOf all fails.now → AreStepsOf all steps) }
{
    let end = MOST_CELLS.min(trie.bytes.len() * starts.bytes.len());
    let mut steps = starts;
    'cells: while steps.cells.len() < end {
        let next = next_of(trie, &steps, fails);
        push_number(&mut steps.cells, next)?;
    }
    Ok(steps)
}

// The node of the next cell.
fn next_of(trie: &Trie, steps: &StepRows, fails: &[u32]) -> usize
    requires trie { IsTrie trie.now.first.items trie.now.bytes.items }
    requires few { length trie.now.bytes.items < 2 ^ 32 }
    requires classes { AreClasses trie.now.bytes.items steps.now }
    requires steps { AreSteps trie.now.first.items steps.now }
    requires fails { AreFallbacks fails.now }
    requires all { length fails.now ≡ length trie.now.bytes.items }
    requires more { length steps.now.cells.items <
        length trie.now.bytes.items * length steps.now.bytes.items }
    ensures near { result < slice_index trie.now.first.items
        (length steps.now.cells.items / length steps.now.bytes.items + 1) }
    ensures right { (all : Labels) → IsTrieOf all trie.now.first.items trie.now.bytes.items →
        AreStepsOf all steps.now → AreFallbacksOf all fails.now → (b : ℕ) → b < 256 →
        slice_index steps.now.classes.items b ≡
        length steps.now.cells.items % length steps.now.bytes.items →
        StepsOn all (length steps.now.cells.items / length steps.now.bytes.items) b result }
{
    let width = steps.bytes.len();
    let class = steps.cells.len() % width;
    if class == 0 {
        return 0;
    }
    step(
        trie,
        steps,
        fails,
        steps.cells.len() / width,
        steps.bytes[class],
    )
}

// The child of the root for a byte of this class, the root if there is none.
fn start_of(trie: &Trie, classes: &StepRows, class: usize) -> usize
    requires trie { IsTrie trie.now.first.items trie.now.bytes.items }
    requires classes { AreClasses trie.now.bytes.items classes.now }
    requires within { class < length classes.now.bytes.items }
    ensures near { result < slice_index trie.now.first.items 1 }
    ensures right { (all : Labels) → IsTrieOf all trie.now.first.items trie.now.bytes.items →
        (b : ℕ) → b < length classes.now.classes.items →
        slice_index classes.now.classes.items b ≡ class → StepsOn all 0 b result }
{
    if class == 0 {
        return 0;
    }
    match trie.child(0, classes.bytes[class]) {
        Some(child) => child,
        None => 0,
    }
}

// The classes of all bytes, and no cells.
fn classes_of(alloc: Global, trie: &Trie) -> Result<StepRows, AllocError>
    requires { IsTrie trie.now.first.items trie.now.bytes.items }
    ensures classes { IfOk result (AreClasses trie.now.bytes.items) }
    ensures all { IfOk result (λ steps. length steps.classes.items ≡ 256) }
    ensures none { IfOk result (λ steps. steps.cells.items ≡ []) }
{
    let mut steps = StepRows {
        classes: Vec::new(alloc),
        bytes: Vec::new(alloc),
        cells: Vec::new(alloc),
    };
    steps.bytes.push(0)?;
    'bytes: while steps.classes.len() < 256 {
        add_class(trie, &mut steps)?;
    }
    Ok(steps)
}

// Adds the class of the next byte.
fn add_class(trie: &Trie, steps: &mut StepRows) -> Result<(), AllocError>
    requires trie { IsTrie trie.now.first.items trie.now.bytes.items }
    requires few { length steps.old.classes.items < 256 }
    requires classes { AreClasses trie.now.bytes.items steps.old }
    ensures classes { IfOk result (λ _. AreClasses trie.now.bytes.items steps.new) }
    ensures one { IfOk result
        (λ _. length steps.new.classes.items ≡ length steps.old.classes.items + 1) }
    ensures same { steps.new.cells ≡ steps.old.cells }
{
    let byte = steps.classes.len() as u8;
    let Some(_place) = memchr(byte, &trie.bytes[1..]) else {
        push_number(&mut steps.classes, 0)?;
        return Ok(());
    };
    let class = steps.bytes.len();
    push_number(&mut steps.classes, class)?;
    steps.bytes.push(byte)?;
    Ok(())
}
