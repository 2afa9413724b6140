//! Search for fixed strings (XCU grep, option `-F`).
ghost use Rattle.std.specs.Prelude.{IfSome, ◌≤◌, [], IfOk, ◌≡◌, length, ◌↔◌, false, IsTrue, ℕ, ◌-◌};
ghost use Rattle.std.specs.Prelude.{◌+◌, ◌<◌, Bool, map, ◌⊎◌, vec_capacity, true, ◌∷◌, ◌^◌};
ghost use Rattle.re_trees.specs.{Holds.Matches, Parts.IsFound, Lines.lines_of, Expression.byte};
ghost use Rattle.re_trees.specs.{Expression.sequence, Bytes.Text};
ghost use Rattle.re_meter.specs.Meters.{AddsAtMost, AddsUpTo, many_passed, AddsJust, many_built};
ghost use Rattle.re_runs.specs.Working.Blocks.{next_cost, FindsMatched, IsBlock};
ghost use Rattle.re_runs.specs.Working.Blocks.{PassesUnmatched};
ghost use Rattle.re_match.specs.{declared.strings.Look.TheVariants.One, Working.Same.SameMatcher};
ghost use Rattle.re_match.specs.Working.Strings.{IsForSet, part_cost, look_expression};
ghost use Rattle.re_match.specs.Working.Strings.{LooksFor, CountsLook};
ghost use Rattle.re_match.specs.Working.Strings.{matched_strings, LooksForPart, CountsPart};
ghost use Rattle.re_match.specs.Working.{Aheads.{CountsAhead, IsAhead, IsWindowOf}, Sweeps.StopsAt};
ghost use Rattle.{re_match.specs.Working.Literals.any_literal, re_auto.specs.Searches.FindsPart};
ghost use Rattle.re_ends.specs.Working.GreatestEnds.{FoundPast, AddsEnds};

use crate::ahead::Ahead;
use crate::line_match::LineMatch;
use crate::scan_backoff::ScanBackoff;
use crate::string_set::StringSet;
use crate::sweeps::{Stop, Sweep, Sweeps, next_by_sweeps};
use crate::window::rest_of;
use memchr::memmem::Finder;
use re_auto::{Meter, fresh_meter};
use re_ends::Window;
use re_runs::{bytes_over, bytes_to, find_text, first_line_with, line_end, next_line_with};
use re_strings::add_occurrences;
use re_trees::Span;
use std::alloc::{AllocError, Global};
use std::marker::Model;

/// How strings are looked for.
#[derive(Drop)]
pub enum Look {
    /// There is one.
    One(Finder<'static>),
    /// There are many, and one pass looks for all of them.
    Many(Box<StringSet>),
}

impl Look {
    // Whether the line is one of the strings.
    fn is_line(&self, line: &[u8]) -> bool
        ensures { IsTrue result ↔ Matches (look_expression self.now) line.now true }
    {
        match self {
            Look::One(finder) => line == finder.needle(),
            Look::Many(set) => set.is_line(line),
        }
    }

    // Whether some string occurs in the line, which is looked over once.
    fn stands_in(&self, line: &[u8], meter: &mut Meter) -> bool
        ensures reported { IsTrue result ↔ Matches (look_expression self.now) line.now false }
        ensures looked { LooksFor self.now line.now meter.old meter.new }
    {
        match self {
            Look::One(finder) => find_text(finder, line, meter).is_some(),
            Look::Many(set) => set.stands_in(line, meter),
        }
    }

    // The first string at `from` or later, and of those that begin there the longest. An empty
    // string makes no part.
    fn occurrence(&self, line: &[u8], from: usize, meter: &mut Meter) -> Option<Span>
        requires { from ≤ length line.now }
        ensures reported { FindsPart (look_expression self.now ∷ []) line.now false from result }
        ensures looked { LooksForPart self.now line.now from result meter.old meter.new }
    {
        let finder = match self {
            Look::One(finder) => finder,
            Look::Many(set) => return set.occurrence(line, from, meter),
        };
        let length = finder.needle().len();
        if length == 0 {
            return None;
        }
        let start = from + find_text(finder, &line[from..], meter)?;
        let end = start + length;
        Some(Span { start, end })
    }

    // Where the next part is. Bytes after its end that the search went over count as steps; if there
    // are too many, it is looked for in the rest of the line.
    fn next_part(&self, line: &[u8], from: usize, meter: &mut Meter) -> Ahead
        requires { from < length line.now }
        ensures reported { IsAhead (look_expression self.now) line.now from result }
        ensures steps { CountsAhead line.now from meter.old meter.new result }
    {
        let mut looked = fresh_meter();
        let Some(part) = self.occurrence(line, from, &mut looked) else {
            meter.add_passed(line.len() - from);
            return Ahead::Nothing;
        };
        let bytes = part.end - from;
        let beyond = (looked.passed() as usize).saturating_sub(bytes);
        meter.add_passed(bytes);
        if beyond > bytes {
            meter.add_passed((line.len() - part.end).min(beyond));
            return Ahead::In(rest_of(line, part.start));
        }
        meter.add_built(beyond as u64);
        Ahead::Part(part)
    }

    // Looks for the first line of a block that has some string.
    fn first_line(&self, block: &[u8], meter: &mut Meter) -> Sweep
        requires { IsBlock block.now }
        ensures passes { (whole : Bool) → PassesUnmatched (look_expression self.now) whole block.now
            result.start }
        ensures stops { (whole : Bool) → StopsAt (look_expression self.now) whole block.now result }
        ensures steps { AddsUpTo 0 result.reached meter.old meter.new }
    {
        match self {
            Look::One(finder) => {
                let swept = first_line_with(finder, block, meter);
                Sweep::to(swept.start, bytes_over(block, swept.place), Stop::Seen)
            }
            Look::Many(set) => set.first_line(block, meter),
        }
    }

    // The place of that line. The block is looked over once.
    fn next_line(&self, block: &[u8], meter: &mut Meter) -> Option<Span>
        requires { IsBlock block.now }
        ensures reported { FindsMatched (look_expression self.now) false (lines_of block.now) result }
        ensures within { IfSome result (λ at. (at.start ≤ at.end) × (at.end < length block.now)) }
        ensures looked { LooksFor self.now block.now meter.old meter.new }
        ensures steps { AddsUpTo 0 (next_cost block.now result) meter.old meter.new }
    {
        let set = match self {
            Look::One(finder) => return next_line_with(finder, block, meter),
            Look::Many(set) => set,
        };
        let start = set.first_line(block, meter).start;
        let end = line_end(block, start)?;
        Some(Span { start, end })
    }

    // Gives each place of the stretch of a line that begins at `start` the greatest end of the strings
    // that begin there.
    fn put_ends(&self, line: &[u8], start: usize, ends: &mut [usize], spare: &mut Vec<usize>)
        requires ends { length ends.old ≡ length line.now }
        requires spare { length line.now ≤ vec_capacity spare.old }
        requires small { start + length line.now < 2 ^ 64 }
        ensures added { AddsEnds (λ i m. (j : ℕ) × (m < start + j)
            × IsFound (look_expression self.now ∷ []) line.now false 0 i j) line.now ends.old ends.new }
        ensures same_spare { vec_capacity spare.old ≤ vec_capacity spare.new }
    {
        match self {
            Look::One(finder) => {
                if finder.needle().is_empty() {
                    return;
                }
                add_occurrences(finder.needle(), line, start, ends, spare);
            }
            Look::Many(set) => set.put_ends(line, start, ends),
        }
    }
}

/// A matcher for fixed strings. Contracts see them, and whether the whole line has to be one of them.
#[derive(Drop)]
pub struct Strings {
    look: Look,
    whole: bool,
    backoff: ScanBackoff,
}

impl Model for Strings {
    ghost use Rattle.re_match.specs.Working.Strings.{StringMatcher};

    ghost Value = { StringMatcher };

    ghost view = { λ s. record { look = s.look; whole = s.whole } };
}

impl Strings {
    /// A matcher for the text, in which no byte is special. The only error is that an allocation
    /// failed.
    pub fn one(alloc: Global, text: &[u8], whole: bool) -> Result<Strings, AllocError>
        ensures { IfOk result (λ s. s ≡ record { look = One text.now; whole = whole }) }
    {
        let finder = Finder::new(text).into_owned(alloc)?;
        Ok(Strings::by(Look::One(finder), whole))
    }

    /// A matcher for the lines of `texts`, in which no byte is special. With `fold` both cases of each
    /// letter are alike. The errors are those of [`StringSet::new`].
    pub fn any(alloc: Global, texts: &[u8], fold: bool, whole: bool) -> Result<Strings, AllocError>
        ensures strings { IfOk result
            (λ s. IsForSet s.look (record { texts = lines_of texts.now; fold = fold })) }
        ensures expression { IfOk result (λ s. matched_strings s ≡
            any_literal (record { texts = lines_of texts.now; fold = fold })) }
        ensures whole { IfOk result (λ s. s.whole ≡ whole) }
    {
        let set = Box::new(alloc, StringSet::new(alloc, texts, fold)?)?;
        Ok(Strings::by(Look::Many(set), whole))
    }

    // Its strings are looked for so.
    fn by(look: Look, whole: bool) -> Strings
        ensures { result ≡ record { look = look; whole = whole } }
    {
        Strings {
            look,
            whole,
            backoff: ScanBackoff::new(),
        }
    }

    // The same as `is_match`, of a line that was looked over already: no byte is passed.
    fn searched(&mut self, line: &[u8], meter: &mut Meter) -> bool
        ensures reported { IsTrue result ↔ Matches (matched_strings self.old) line.now self.old.whole }
        ensures steps { AddsJust (length line.now + 1) 0 meter.old meter.new }
        ensures same { self.new ≡ self.old }
    {
        meter.add_built(line.len() as u64 + 1);
        self.is_match(line, &mut fresh_meter())
    }

    // Whether it is worth while to look ahead in a block now. One string is always looked for.
    fn should_scan(&self) -> bool {
        matches!(&self.look, Look::One(_)) || self.backoff.should_scan()
    }
}

// How many bytes a search for a part from a place on answers for: those up to the part's end; if
// there is none, those up to the line's end, and one more.
fn bytes_to_part(line: &[u8], from: usize, found: Option<Span>) -> u64
    requires from { from ≤ length line.now }
    requires part { IfSome found (λ part. (from ≤ part.end) × (part.end ≤ length line.now)) }
    ensures is { result ≡ part_cost line.now from found }
    ensures few { result ≤ length line.now - from + 1 }
{
    match found {
        Some(part) => (part.end - from) as u64,
        None => (line.len() - from) as u64 + 1,
    }
}

impl LineMatch for Strings {
    ghost use Rattle.re_match.specs.Working.Strings.{matched_strings};

    ghost expression = { λ s. matched_strings s };

    ghost whole = { λ s. s.whole };

    ghost room = { λ s. 0 };

    #[inline(always)]
    fn is_match(&mut self, line: &[u8], meter: &mut Meter) -> bool
        ensures reported { IsTrue result ↔ Matches (matched_strings self.old) line.now self.old.whole }
        ensures steps { AddsAtMost (length line.now + 1) meter.old meter.new }
        ensures same { self.new ≡ self.old }
        ensures counted { CountsLook self.old line.now (length line.now + 1) meter.old meter.new }
    {
        if self.whole {
            meter.add_built(line.len() as u64 + 1);
            return self.look.is_line(line);
        }
        let found = self.look.stands_in(line, meter);
        meter.add_built(line.len() as u64 + 1);
        found
    }

    fn find(&mut self, line: &[u8], from: usize, meter: &mut Meter) -> Option<Span>
        requires { from ≤ length line.now }
        ensures reported { FindsPart (matched_strings self.old ∷ []) line.now false from result }
        ensures steps { AddsAtMost (length line.now - from + 1) meter.old meter.new }
        ensures same { self.new ≡ self.old }
        ensures counted { CountsPart self.old.look line.now from result meter.old meter.new }
    {
        let found = self.look.occurrence(line, from, meter);
        meter.add_built(bytes_to_part(line, from, found));
        found
    }

    fn next_window(&mut self, line: &[u8], from: usize, meter: &mut Meter) -> Ahead
        requires { from < length line.now }
        ensures reported { IsAhead (matched_strings self.old) line.now from result }
        ensures steps { CountsAhead line.now from meter.old meter.new result }
        ensures same { self.new ≡ self.old }
    {
        self.look.next_part(line, from, meter)
    }

    fn add_ends(
        &mut self,
        line: &[u8],
        window: Window,
        ends: &mut [usize],
        spare: &mut Vec<usize>,
        meter: &mut Meter,
    )
        requires window { IsWindowOf (matched_strings self.old) line.now window }
        requires ends { length ends.old ≡ window.end - window.start }
        requires spare { window.end - window.start ≤ vec_capacity spare.old }
        ensures added { AddsEnds
            (λ i m. FoundPast (matched_strings self.old ∷ []) line.now false (window.start + i) m)
            ends.old ends.old ends.new }
        ensures same_spare { vec_capacity spare.old ≤ vec_capacity spare.new }
        ensures steps { AddsJust (window.end - window.start) 0 meter.old meter.new }
        ensures same { self.new ≡ self.old }
    {
        meter.add_built((window.end - window.start) as u64);
        let stretch = &line[window.start..window.end];
        self.look.put_ends(stretch, window.start, ends, spare);
    }

    fn next_matched(&mut self, block: &[u8], meter: &mut Meter) -> Option<Span>
        requires { IsBlock block.now }
        ensures reported { FindsMatched (matched_strings self.old) self.old.whole (lines_of block.now)
            result }
        ensures within { IfSome result
            (λ at. (at.start ≤ at.end) × (at.end < length block.now)) }
        ensures same { SameMatcher matched_strings (λ s. s.whole) (λ s. 0) self.old self.new }
        ensures steps { AddsAtMost (next_cost block.now result) meter.old meter.new }
        ensures counted { self.old.whole ≡ false →
            CountsLook self.old block.now (next_cost block.now result) meter.old meter.new }
    {
        if self.whole {
            return next_by_sweeps(self, block, meter);
        }
        let found = self.look.next_line(block, meter);
        meter.add_built(bytes_to(block, found));
        found
    }
}

impl Sweeps for Strings {
    ghost use Rattle.re_match.specs.Working.Strings.{matched_strings};

    ghost expression = { λ s. matched_strings s };

    ghost whole = { λ s. s.whole };

    ghost room = { λ s. 0 };

    fn sweep(&mut self, block: &[u8], meter: &mut Meter) -> Sweep {
        if !self.should_scan() {
            return Sweep::to(0, 0, Stop::Unseen);
        }
        let sweep = self.look.first_line(block, meter);
        self.backoff.note(sweep.start);
        meter.add_built(sweep.start as u64);
        sweep
    }

    #[inline(always)]
    fn search_after(&mut self, stop: Stop, line: &[u8], meter: &mut Meter) -> bool {
        match stop {
            Stop::Unseen => self.is_match(line, meter),
            Stop::Seen => self.searched(line, meter),
            Stop::Decided(answer) => answer,
        }
    }
}
