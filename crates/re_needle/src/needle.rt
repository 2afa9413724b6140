//! What every match of an expression contains.
ghost use Rattle.std.specs.Prelude.{◌≡◌, ◌+◌, ◌≤◌, ◌++◌, List, Option, Some, IfOk, IfSome, IsTrue};
ghost use Rattle.std.specs.Prelude.{false, length, map, All, take, drop};
ghost use Rattle.re_trees.specs.{Bytes.{Bytes, only}, Expression.{Expression, byte}};
ghost use Rattle.re_trees.specs.Working.Trees.{expression_of, members};
ghost use Rattle.re_needle.specs.Working.Needles.{IsNeedleFor, IsRunNeedleFor};
ghost use Rattle.re_needle.specs.Working.Outlines.{IsOptional, IsOutline, shown};

use crate::choice::{Run, RunKind, SHORT, best_run, start_among};
use crate::choice_needle::{choice_needle, needle_inside};
use crate::leading_sets::leading_sets;
use crate::outline::add_outline;
use crate::outline_item::OutlineItem;
use memchr::memmem::Finder;
use re_runs::{RunFinder, SetFinder, rank_of};
use re_trees::{ByteSet, Tree};
use std::alloc::{AllocError, Global};

// A run of sets of any size is looked for if it has at least this number of sets.
const MANY_SETS: usize = 8;

// A byte of this rank or a higher one is on most lines of most texts: the blank, `e` and `t`. The
// table of ranks counts all bytes from 0xC0 on as common, too.
const COMMON: u8 = 250;

// Where more runs are looked for at once, a short one costs much: all are tested as far as the shortest.
const FEW_RUNS: usize = 4;

// A run of at most so many bytes may be a word that is on most lines of a text.
const WORD: usize = 5;

// About how many of 65,536 places of such a text have it.
const OF_WORDS: u64 = 64;

// Sets that are at no more than this number of 65,536 places of most texts are at few.
const FEW: u64 = 4_096;

/// Runs of bytes, or of sets of bytes, one of which every match of an expression contains.
#[derive(Drop)]
pub struct Needle {
    /// Looks for the runs.
    pub finder: RunFinder,
    /// Whether every match begins with one.
    pub is_first: bool,
    /// Whether the matches are exactly the places of the runs.
    pub is_all: bool,
    /// Whether there is a match wherever a run is.
    pub suffices: bool,
    /// Whether they are on most lines of some texts. Then it is looked for over blocks, as long
    /// as lines are passed, and not in each line before a search by kept steps.
    pub is_common: bool,
}

impl Needle {
    /// The runs to look for: of a choice a run of each branch, if these are rare in most texts or
    /// all there is; else the run of [`run_needle`], or the runs for a choice inside if these are rarer.
    /// The only error is that an allocation failed.
    pub fn of(alloc: Global, tree: &Tree) -> Result<Option<Needle>, AllocError>
        ensures { IfOk result (IsNeedleFor (expression_of tree.now)) }
    {
        let choice = choice_needle(alloc, tree)?;
        if choice.is_some() {
            return Ok(choice);
        }
        let mut marks = Vec::new(alloc);
        add_outline(alloc, tree, &mut marks)?;
        let run = run_needle(alloc, &marks, 1)?;
        let inside = needle_inside(alloc, tree, stops_of(&run))?;
        if inside.is_some() {
            return Ok(inside);
        }
        Ok(run)
    }

    /// Whether the runs are rare in most texts, and at fewer than `most` of 65,536 places.
    pub fn is_rare(&self, most: u64) -> bool {
        match &self.finder {
            RunFinder::Text(_) => false,
            RunFinder::Sets(finder) => finder.is_selective() && finder.stops() < most,
        }
    }

    /// About how many of 65,536 places of most texts a look for it stops at: none if it is a string, which
    /// is looked for fast, but no fewer than a common word if it is as short as one.
    pub fn stops(&self) -> u64 {
        let stops = match &self.finder {
            RunFinder::Text(_) => 0,
            RunFinder::Sets(finder) => finder.stops(),
        };
        if self.finder.longest() <= WORD {
            return stops.max(OF_WORDS);
        }
        stops
    }

    /// Whether the next match of a line is looked for by it: it isn't common, or sets at few places.
    pub fn is_sought(&self) -> bool {
        !self.is_common || self.finder.text().is_none() && self.stops() <= FEW
    }
}

// The same of a needle that may be missing: all places if there is none, or if it is common.
fn stops_of(needle: &Option<Needle>) -> u64 {
    match needle {
        Some(needle) if !needle.is_common => needle.stops(),
        _ => u64::MAX,
    }
}

/// The run to look for, the first of these that every match needs, also in groups and in what is
/// repeated once or more: two or more small sets that are all there is; two or more single bytes,
/// unless small sets are at fewer places; a run of small sets that is rare in most texts; one byte
/// that is not common, and than which no small sets are rarer; a long run of sets of any size; a common
/// byte, or such small sets; any run of small sets, be it of one. A choice has the sets
/// that its branches begin with, and a set that is repeated counts once for each time. With other branches,
/// `branches` in all, its run is looked for by sets, and small sets after a string make it rarer. `None` if
/// there is none of these. The only error is that an allocation failed.
pub fn run_needle(
    alloc: Global,
    marks: &[OutlineItem],
    branches: usize,
) -> Result<Option<Needle>, AllocError>
    ensures { IfOk result
        (λ found. (e : Expression) → IsOutline marks.now e → IsRunNeedleFor e found) }
{
    let least = if branches > FEW_RUNS { SHORT } else { 0 };
    let bytes = best_run(marks, RunKind::Bytes, 0);
    let text = text_needle(alloc, marks, bytes.start, 2)?;
    let sets = best_run(marks, RunKind::SmallSets, least);
    let is_text = branches < 2 && !sets.is_all(marks) && !sets.is_at_fewer(bytes);
    if text.is_some() && (is_text || bytes.is_all(marks)) {
        return Ok(text);
    }
    let start = start_among(branches, marks, sets);
    let found = set_needle(alloc, marks, start, RunKind::SmallSets, 2, false)?;
    if found.is_some() {
        return Ok(found);
    }
    if text.is_some() {
        return Ok(text);
    }
    let single = single_needle(alloc, marks, bytes, sets)?;
    if matches!(&single, Some(needle) if !needle.is_common) {
        return Ok(single);
    }
    let wide = best_run(marks, RunKind::Sets, 0).start;
    let found = set_needle(alloc, marks, wide, RunKind::Sets, MANY_SETS, true)?;
    if found.is_some() {
        return Ok(found);
    }
    if single.is_some() {
        return Ok(single);
    }
    set_needle(alloc, marks, sets.start, RunKind::SmallSets, 1, true)
}

// The needle of the single bytes from a mark on, if there are at least `least`.
fn text_needle(
    alloc: Global,
    marks: &[OutlineItem],
    start: usize,
    least: usize,
) -> Result<Option<Needle>, AllocError>
    requires start { start ≤ length marks.now }
    requires some { 1 ≤ least }
    ensures { IfOk result
        (λ found. (e : Expression) → IsOutline marks.now e → IsRunNeedleFor e found) }
{
    let bytes = leading_bytes(alloc, &marks[start..])?;
    if bytes.len() < least {
        return Ok(None);
    }
    let is_all = bytes.len() == marks.len();
    let suffices = are_others_optional(marks, start, bytes.len());
    let is_common = !is_all && is_common_byte(&bytes);
    let finder = Finder::new(&bytes).into_owned(alloc)?;
    Ok(Some(Needle {
        finder: RunFinder::Text(finder),
        is_first: start == 0,
        is_all,
        suffices,
        is_common,
    }))
}

// The needle of one byte, or of small sets that are rarer.
fn single_needle(
    alloc: Global,
    marks: &[OutlineItem],
    bytes: Run,
    sets: Run,
) -> Result<Option<Needle>, AllocError>
    requires bytes { bytes.start ≤ length marks.now }
    requires sets { sets.start ≤ length marks.now }
    ensures { IfOk result
        (λ found. (e : Expression) → IsOutline marks.now e → IsRunNeedleFor e found) }
{
    if !sets.is_rarer(bytes) {
        return text_needle(alloc, marks, bytes.start, 1);
    }
    set_needle(alloc, marks, sets.start, RunKind::SmallSets, 1, true)
}

// Whether the text is one byte that is on most lines of most texts.
fn is_common_byte(text: &[u8]) -> bool {
    text.len() == 1 && rank_of(text[0]) >= COMMON
}

// The needle of the sets from a mark on, if there are at least `least`. `None` if it is not said to be
// common, and is neither rare in most texts nor all there is.
fn set_needle(
    alloc: Global,
    marks: &[OutlineItem],
    start: usize,
    of: RunKind,
    least: usize,
    is_common: bool,
) -> Result<Option<Needle>, AllocError>
    requires start { start ≤ length marks.now }
    requires some { 1 ≤ least }
    ensures { IfOk result
        (λ found. (e : Expression) → IsOutline marks.now e → IsRunNeedleFor e found) }
{
    let sets = leading_sets(alloc, &marks[start..], of)?;
    if sets.len() < least {
        return Ok(None);
    }
    let is_all = !is_common && sets.len() == marks.len();
    let suffices = are_others_optional(marks, start, sets.len());
    let mut runs = Vec::new(alloc);
    runs.push(sets)?;
    let Some(finder) = SetFinder::new(alloc, runs)? else {
        return Ok(None);
    };
    if !is_common && !is_all && !finder.is_selective() {
        return Ok(None);
    }
    Ok(Some(Needle {
        finder: RunFinder::Sets(finder),
        is_first: start == 0,
        is_all,
        suffices,
        is_common,
    }))
}

// The bytes of the marks before the first that isn't a single byte.
fn leading_bytes(alloc: Global, marks: &[OutlineItem]) -> Result<Vec<u8>, AllocError>
    ensures { IfOk result
        (λ bytes. (rest : List (Option Bytes)) ×
        (map shown marks.now ≡ map Some (map only bytes.items) ++ rest)) }
{
    let mut bytes = Vec::new(alloc);
    'marks: for mark in marks {
        let Some(byte) = byte_of(mark) else {
            return Ok(bytes);
        };
        bytes.push(byte)?;
    }
    Ok(bytes)
}

// The byte of the mark, if it is a single byte.
fn byte_of(mark: &OutlineItem) -> Option<u8>
    ensures { IfSome result (λ b. shown mark.now ≡ Some (only b)) }
{
    match mark {
        OutlineItem::Set(set) => set.one_byte(),
        OutlineItem::Optional => None,
        OutlineItem::Gap => None,
    }
}

// Whether all marks but `count` from a mark on are optional.
fn are_others_optional(marks: &[OutlineItem], start: usize, count: usize) -> bool
    requires { start + count ≤ length marks.now }
    ensures { IsTrue result → All IsOptional (take start marks.now)
        × All IsOptional (drop count (drop start marks.now)) }
{
    if !are_optional(&marks[..start]) {
        return false;
    }
    let rest = &marks[start..];
    are_optional(&rest[count..])
}

// Whether all of the marks are optional.
fn are_optional(marks: &[OutlineItem]) -> bool
    ensures { IsTrue result → All IsOptional marks.now }
{
    'marks: for place in 0..marks.len() {
        if !is_optional(&marks[place]) {
            return false;
        }
    }
    true
}

// Whether the mark is an optional stretch.
fn is_optional(mark: &OutlineItem) -> bool
    ensures { IsTrue result → IsOptional mark.now }
{
    match mark {
        OutlineItem::Optional => true,
        OutlineItem::Set(_) => false,
        OutlineItem::Gap => false,
    }
}

/// The byte that the tree matches, if it matches that byte and nothing else.
pub fn one_byte(tree: &Tree) -> Option<u8>
    ensures { IfSome result (λ b. expression_of tree.now ≡ byte b) }
{
    match tree {
        Tree::Set(set) => set.one_byte(),
        _ => None,
    }
}
