//! Many fixed strings that are looked for at once.
ghost use Rattle.std.specs.Prelude.{ℕ, length, ◌<◌, [], IfOk, true, ◌++◌, false, ◌^◌, ◌+◌, ◌≡◌};
ghost use Rattle.std.specs.Prelude.{◌↔◌, Bool, IsTrue, map, slice_range, ◌≤◌, ◌∷◌, IfSome};
ghost use Rattle.re_strings.specs.Working.{Keys.keys, Branches.{AreAscending, HaveSame}};
ghost use Rattle.re_strings.specs.Working.FixedSets.{IsString};
ghost use Rattle.re_trees.specs.{Expression.Expression, Lines.{lines_of, newline}, Parts.IsFound};
ghost use Rattle.{re_trees.specs.Holds.Matches, re_meter.specs.Meters.AddsUpTo};
ghost use Rattle.re_match.specs.Working.Literals.{any_literal, LooksForAny, ReachesPart};
ghost use Rattle.{re_match.specs.Working.Sweeps.StopsAt, re_auto.specs.Searches.FindsPart};
ghost use Rattle.re_runs.specs.Working.Blocks.{IsBlock, IsLineFrom, PassesUnmatched};
ghost use Rattle.re_ends.specs.Working.GreatestEnds.{AddsEnds};

use crate::sweeps::{Stop, Sweep};
use re_auto::Meter;
use re_runs::line_start;
use re_strings::{AhoCorasick, Payoff, table_of};
use re_trees::{Span, split_file};
use std::alloc::{AllocError, Global};
use std::marker::Model;

/// Many strings, which are looked for in one step a byte however many they are. Contracts see the
/// strings, and whether both cases of each letter are alike.
#[derive(Drop)]
pub struct StringSet {
    texts: Vec<u8>,
    table: AhoCorasick,
    has_empty: bool,
    payoff: Payoff,
}

impl Model for StringSet {
    ghost use Rattle.std.specs.Prelude.{◌↔◌, IsTrue, [], ℕ, map};
    ghost use Rattle.re_trees.specs.Bytes.{Text};
    ghost use Rattle.re_trees.specs.Lines.{lines_of};
    ghost use Rattle.re_match.specs.Working.Literals.{Literals};
    ghost use Rattle.re_strings.specs.Working.Keys.{keys};
    ghost use Rattle.re_strings.specs.Working.FixedSets.{IsTable, IsTableOf, IsString};

    ghost Value = { Literals };

    ghost view = { λ f. record { texts = lines_of f.texts.items; fold = f.table.fold } };

    ghost invariant = { λ f. IsTable f.table ×
        ((label : ℕ → Text) ×
        IsTableOf
        (record { strings = map (keys f.table.fold) (lines_of f.texts.items); label = label })
        f.table)
        × (IsTrue f.has_empty ↔ IsString (map (keys f.table.fold) (lines_of f.texts.items)) []) };
}

impl StringSet {
    /// The lines of `texts`, in which no byte is special. With `fold` both cases of each letter are
    /// alike. The errors are that an allocation failed, or that the texts have 2^32 beginnings or
    /// more.
    pub fn new(alloc: Global, texts: &[u8], fold: bool) -> Result<StringSet, AllocError>
        ensures { IfOk result (λ f. f ≡ record { texts = lines_of texts.now; fold = fold }) }
    {
        if fold {
            let lowered = texts.to_ascii_lowercase(alloc)?;
            return StringSet::by_keys(alloc, texts, &lowered, fold);
        }
        StringSet::by_keys(alloc, texts, texts, fold)
    }

    // The same texts. They are compared as the lines of `keyed`.
    fn by_keys(
        alloc: Global,
        texts: &[u8],
        keyed: &[u8],
        fold: bool,
    ) -> Result<StringSet, AllocError>
        requires { lines_of keyed.now ≡ map (keys fold) (lines_of texts.now) }
        ensures { IfOk result (λ f. f ≡ record { texts = lines_of texts.now; fold = fold }) }
    {
        let strings = strings_of(alloc, keyed)?;
        let has_empty = has_empty(&strings);
        let table = table_of(alloc, &strings, fold)?;
        drop(strings);
        let mut kept = Vec::new(alloc);
        kept.extend_from_slice(texts)?;
        Ok(StringSet {
            texts: kept,
            table,
            has_empty,
            payoff: Payoff::new(),
        })
    }

    /// Whether the line is one of the strings.
    pub fn is_line(&self, line: &[u8]) -> bool
        ensures { IsTrue result ↔ Matches (any_literal self.now) line.now true }
    {
        if line.is_empty() {
            return self.has_empty;
        }
        self.table.is_line(line)
    }

    /// Whether some string occurs in the line, which is looked over up to where the first string ends.
    pub fn stands_in(&self, line: &[u8], meter: &mut Meter) -> bool
        ensures reported { IsTrue result ↔ Matches (any_literal self.now) line.now false }
        ensures looked { LooksForAny self.now line.now meter.old meter.new }
    {
        if self.has_empty {
            return true;
        }
        let leaps = self.table.leaps_in(line, &self.payoff);
        self.table.first_end(line, leaps, meter).is_some()
    }

    /// Looks for the first line with some string in a block of whole lines.
    pub fn first_line(&self, block: &[u8], meter: &mut Meter) -> Sweep
        requires { IsBlock block.now }
        ensures passes { PassesUnmatched (any_literal self.now) false block.now result.start }
        ensures stops { (e : Expression) (whole : Bool) → StopsAt e whole block.now result }
        ensures found { (end : ℕ) → IsLineFrom block.now result.start end →
            Matches (any_literal self.now) (slice_range block.now result.start end) false }
        ensures looked { LooksForAny self.now block.now meter.old meter.new }
        ensures steps { AddsUpTo 0 result.reached meter.old meter.new }
    {
        if self.has_empty {
            return Sweep::to(0, 0, Stop::Unseen);
        }
        let leaps = self.table.leaps_in(block, &self.payoff);
        let Some(end) = self.table.first_end(block, leaps, meter) else {
            return Sweep::to(block.len(), block.len(), Stop::Seen);
        };
        Sweep::to(line_start(block, end), end, Stop::Seen)
    }

    /// The first string at `from` or later, and of those that begin there the longest. An empty
    /// string makes no part.
    pub fn occurrence(&self, line: &[u8], from: usize, meter: &mut Meter) -> Option<Span>
        requires { from ≤ length line.now }
        ensures reported { FindsPart (any_literal self.now ∷ []) line.now false from result }
        ensures reached { ReachesPart self.now line.now from result meter.old meter.new }
    {
        let leaps = self.table.leaps_in(line, &self.payoff);
        self.table.find(line, from, leaps, meter)
    }

    /// Gives each place of the stretch of a line that begins at `start` the greatest end of the strings
    /// that begin there.
    pub fn put_ends(&self, line: &[u8], start: usize, ends: &mut [usize])
        requires room { length ends.old ≡ length line.now }
        requires small { start + length line.now < 2 ^ 64 }
        ensures { AddsEnds (λ i m. (j : ℕ) × (m < start + j)
            × IsFound (any_literal self.now ∷ []) line.now false 0 i j) line.now ends.old ends.new }
    {
        self.table.add_ends(line, start, ends);
    }
}

/// Adds a text and a newline.
pub fn add_line(texts: &mut Vec<u8>, text: &[u8]) -> Result<(), AllocError>
    ensures { IfOk result (λ _. texts.new.items ≡ texts.old.items ++ (text.now ++ newline ∷ [])) }
{
    texts.extend_from_slice(text)?;
    texts.push(b'\n')?;
    Ok(())
}

// The lines of a text, in order.
fn strings_of(alloc: Global, texts: &[u8]) -> Result<Vec<&[u8]>, AllocError>
    ensures ordered { IfOk result (λ strings. AreAscending (map (λ s. s.now) strings.items)) }
    ensures same { IfOk result
        (λ strings. HaveSame (map (λ s. s.now) strings.items) (lines_of texts.now)) }
{
    let mut strings = Vec::new(alloc);
    'lines: for text in split_file(texts) {
        strings.push(text)?;
    }
    strings.sort()?;
    Ok(strings)
}

// Whether one of the strings is empty.
fn has_empty(strings: &[&[u8]]) -> bool
    ensures { IsTrue result ↔ IsString (map (λ s. s.now) strings.now) [] }
{
    'places: for place in 0..strings.len() {
        if strings[place].is_empty() {
            return true;
        }
    }
    false
}
