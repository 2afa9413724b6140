//! What the texts of patterns are read as.
ghost use Rattle.std.specs.Prelude.{IfErr, ◌≡◌, [], false, Bool, ◌≤◌, IfSome, length, IfOk, ◌⊎◌};
ghost use Rattle.std.specs.Prelude.{true, IsTrue};
ghost use Rattle.re_syntax.specs.{Holds.positions, Spelled.has_limit, Working.Trees.expression_of};
ghost use Rattle.re_syntax.specs.declared.syntax.Syntax.TheVariants.{Fixed};
ghost use Rattle.re_search.specs.Reading.{IsOutOfMemory, IsRefusedFor};
ghost use Rattle.re_search.specs.Working.{Strings.AddsStrings, Matchers.matched_expression};
ghost use Rattle.re_search.specs.Working.Matchers.{wants_whole, is_fixed, room_of, entries_of};
ghost use Rattle.re_search.specs.Working.Patterns.{IsPattern, IsCounted, pattern_expression};
ghost use Rattle.re_search.specs.Working.Patterns.{is_string, meaning, meant_by};

use crate::matcher::{Matcher, fault_at_first, tree_matcher};
use crate::strings::{add_each, add_string, add_tree};
use re_match::Strings;
use re_needle::one_byte;
use re_syntax::{FaultKind, MOST_POSITIONS, PatternFault, Syntax, Tree, count_positions, read};
use std::alloc::{AllocError, Global};

/// Up to how many bytes a text is read into a tree at once. The positions of a longer one are
/// counted first, since its tree may take some 80 times its memory.
const MOST_BYTES: usize = 65_536;

// Up to this number of bytes `memmem` compares a string whole.
const WHOLE: usize = 32;

// Up to this number an automaton for a string is small.
const SMALL: usize = 256;

/// What the text of a pattern is read as.
#[derive(Drop)]
pub enum Pattern<'a> {
    /// A string in which no byte is special.
    String(&'a [u8]),
    /// An expression: its tree, and the number of the tree's positions, at most 4,096.
    Tree(Tree, usize),
}

impl<'a> Pattern<'a> {
    // How many positions it has.
    pub(crate) fn positions(&self) -> usize
        ensures { (fold : Bool) → IsCounted fold self.now →
            result ≡ positions (pattern_expression self.now) }
    {
        match self {
            Pattern::String(text) => text.len(),
            Pattern::Tree(_, count) => *count,
        }
    }

    /// Whether it is a string whose first bytes are looked for faster than all of it, and for which an
    /// automaton is small.
    pub fn is_long_string(&self) -> bool {
        let bytes = match self {
            Pattern::String(text) => text.len(),
            Pattern::Tree(Tree::Cat(parts), _) if are_bytes(parts) => parts.len(),
            Pattern::Tree(_, _) => 0,
        };
        bytes > WHOLE && bytes <= SMALL
    }

    /// Adds the strings that it is, each followed by a newline: the one, or those that it is a
    /// choice of. `None`: it is something else, a string has a newline, or out of memory. What was
    /// added by then stays.
    pub fn add_strings(&self, alloc: Global, strings: &mut Vec<u8>) -> Option<()>
        ensures { IfSome result
            (λ _. AddsStrings (pattern_expression self.now) strings.old.items strings.new.items) }
    {
        match self {
            Pattern::String(text) => add_string(text, strings),
            Pattern::Tree(Tree::Alt(branches), _) if branches.len() > 1 => {
                add_each(alloc, branches, strings)
            }
            Pattern::Tree(tree, _) => add_tree(alloc, tree, strings),
        }
    }

    // The tree of its meaning.
    pub(crate) fn into_tree(self, alloc: Global, fold: bool) -> Result<Tree, AllocError>
        ensures { IfOk result (λ tree. expression_of tree ≡ meant_by fold self.entry) }
    {
        match self {
            Pattern::String(text) => match read(alloc, Syntax::Fixed, text) {
                Ok((tree, _)) => Ok(meant(tree, fold)),
                Err(_) => Err(AllocError),
            },
            Pattern::Tree(tree, _) => Ok(meant(tree, fold)),
        }
    }

    /// The matcher for it; with `fold` both cases of each letter are alike (XCU grep, option `-i`),
    /// and with `whole` the whole line has to be matched (option `-x`). A string is looked for as
    /// it is, unless it has letters and is folded. All else gets an automaton and a cache of at most
    /// `states` entries, from 1 to 65,536. The cache is allocated for the first line that takes
    /// steps. A line is searched without it if its allocation fails, and the next such line tries
    /// again.
    pub fn into_matcher(
        self,
        alloc: Global,
        fold: bool,
        whole: bool,
        states: usize,
    ) -> Result<Matcher, AllocError>
        requires small { IsCounted fold self }
        requires some { 1 ≤ states }
        ensures expression { IfOk result (λ m. matched_expression m ≡ meant_by fold self.entry) }
        ensures whole { IfOk result (λ m. wants_whole m ≡ whole) }
        ensures kind { IfOk result
            (λ m. fold ≡ false → is_string self.entry ≡ true → is_fixed m ≡ true) }
        ensures room { IfOk result (λ m. room_of m ≤ states) }
        ensures empty { IfOk result (λ m. entries_of m ≡ []) }
    {
        match self {
            Pattern::String(text) if !fold => Ok(Matcher::Strings(Strings::one(
                alloc, text, whole,
            )?)),
            _ => tree_matcher(alloc, self.into_tree(alloc, fold)?, whole, states),
        }
    }
}

// Whether each of the trees is one byte.
fn are_bytes(parts: &[Tree]) -> bool {
    parts.iter().all(|part| one_byte(part).is_some())
}

// The tree of a meaning.
fn meant(tree: Tree, fold: bool) -> Tree
    ensures { expression_of result ≡ meaning fold (expression_of tree) }
{
    if fold {
        return re_syntax::fold(tree);
    }
    tree
}

/// Reads the text of a pattern.
///
/// # Errors
///
/// `FaultKind::Memory` at 0 if out of memory; if the text is no expression, its first fault;
/// `FaultKind::TooLarge` at 0 if its expression has more than 4,096 positions once its intervals
/// are written out. A fixed string that is not folded may be of any length.
pub fn read_pattern(
    alloc: Global,
    text: &[u8],
    syntax: Syntax,
    fold: bool,
) -> Result<Pattern<'_>, PatternFault>
    ensures read { IfOk result (IsPattern syntax fold text.now) }
    ensures refused { IfErr result
        (λ fault. IsOutOfMemory fault ⊎ IsRefusedFor syntax fold text.now fault) }
{
    match syntax {
        Syntax::Fixed => read_fixed(text, fold),
        Syntax::Basic => read_small(alloc, text, syntax, fold),
        Syntax::Extended => read_small(alloc, text, syntax, fold),
    }
}

// Reads a text in which no byte is special.
fn read_fixed(text: &[u8], fold: bool) -> Result<Pattern<'_>, PatternFault>
    ensures read { IfOk result (IsPattern Fixed fold text.now) }
    ensures refused { IfErr result
        (λ fault. IsOutOfMemory fault ⊎ IsRefusedFor Fixed fold text.now fault) }
{
    if fold && text.len() > MOST_POSITIONS {
        return Err(fault_at_first(FaultKind::TooLarge));
    }
    Ok(Pattern::String(text))
}

// Reads a text whose expression has to be small.
fn read_small(
    alloc: Global,
    text: &[u8],
    syntax: Syntax,
    fold: bool,
) -> Result<Pattern<'_>, PatternFault>
    requires { IsTrue (has_limit syntax fold) }
    ensures read { IfOk result (IsPattern syntax fold text.now) }
    ensures refused { IfErr result
        (λ fault. IsOutOfMemory fault ⊎ IsRefusedFor syntax fold text.now fault) }
{
    if text.len() > MOST_BYTES && count_positions(syntax, text)? > MOST_POSITIONS {
        return Err(fault_at_first(FaultKind::TooLarge));
    }
    let (tree, count) = read(alloc, syntax, text)?;
    if count > MOST_POSITIONS {
        return Err(fault_at_first(FaultKind::TooLarge));
    }
    Ok(Pattern::Tree(tree, count))
}
