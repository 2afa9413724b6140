//! What is known of lines, parts and blocks by what each match contains.
ghost use Rattle.std.specs.Prelude.{IsTrue, ◌<◌, ◌≡◌, Some, ◌+◌, ℕ, ◌-◌, false, ◌≤◌};
ghost use Rattle.std.specs.Prelude.{IfSome, drop, length, min, slice_range, ◌⊎◌, IfOk};
ghost use Rattle.re_trees.specs.{Expression.Expression, Working.Trees.expression_of};
ghost use Rattle.re_trees.specs.Lines.{HasNoNewline};
ghost use Rattle.re_meter.specs.Meters.{AddsJust, AddsUpTo, Steps};
ghost use Rattle.re_needle.specs.Working.Needles.{IsNeedleOf, IsSettled};
ghost use Rattle.re_runs.specs.Working.{Blocks.{PassesUnmatched, IsBlock}, Finders.runs_of};
ghost use Rattle.re_runs.specs.Working.Runs.{FindsRun, longest_of};
ghost use Rattle.re_match.specs.Working.{Prefilters.IsPrefilterFor, Sweeps.{LooksOver, StopsAt}};
ghost use Rattle.re_match.specs.Working.Aheads.{PassesAtLeast, AreEdgesFor, IsSaid};
ghost use Rattle.re_match.specs.declared.ahead.Ahead.TheVariants.{In};

use crate::ahead::Ahead;
use crate::scan_backoff::ScanBackoff;
use crate::sweeps::{Stop, Sweep};
use crate::window::{Edges, rest_of};
use re_auto::Meter;
use re_ends::Window;
use re_needle::{Needle, has_begin};
use re_runs::{RunFinder, Swept, bytes_over, first_line_with_run, line_end};
use re_trees::{Span, Tree};
use std::alloc::{AllocError, Global};

/// What each match of an expression contains, if that is known. It is looked for in lines, and in
/// blocks where such looks pay.
#[derive(Drop)]
pub struct Prefilter {
    needle: Option<Needle>,
    // Whether the expression has a `^`.
    has_begin: bool,
    /// When such looks pay.
    pub backoff: ScanBackoff,
}

impl Prefilter {
    /// What each match of the tree contains. The only error is that an allocation failed.
    pub fn of(alloc: Global, tree: &Tree) -> Result<Prefilter, AllocError>
        ensures { IfOk result (IsPrefilterFor (expression_of tree.now)) }
    {
        let needle = Needle::of(alloc, tree)?;
        Ok(Prefilter {
            needle,
            has_begin: has_begin(tree),
            backoff: ScanBackoff::new(),
        })
    }

    // Whether a look for a string decided the line where it stopped. The next line begins with one, too,
    // as none is faster.
    fn has_string(&self, stop: Stop) -> bool {
        let Some(needle) = &self.needle else {
            return false;
        };
        matches!(stop, Stop::Decided(true)) && needle.finder.text().is_some()
    }

    /// Whether the line is matched, if one look over it says so. A run that is common is looked for
    /// over blocks alone, and so is one that most lines had of late, unless it decides them.
    #[inline(always)]
    pub fn settled(&self, line: &[u8], whole: bool, meter: &mut Meter) -> Option<bool>
        ensures settled { (e : Expression) → IsPrefilterFor e self.now →
            IfSome result (λ reported. IsSettled e whole line.now reported) }
        ensures looked { (e : Expression) → IsPrefilterFor e self.now →
            LooksOver e line.now result meter.old meter.new }
    {
        let Some(needle) = &self.needle else {
            return None;
        };
        if whole && needle.is_first {
            if needle.finder.begins(line, meter) {
                return None;
            }
            return Some(false);
        }
        if !needle.suffices && (needle.is_common || self.backoff.rests()) {
            return None;
        }
        if needle.finder.find(line, meter).is_none() {
            return Some(false);
        }
        if needle.suffices && !whole {
            return Some(true);
        }
        None
    }

    /// How many bytes of a block are walked over before the next look. None are where a look decides
    /// each line, or the first bytes of most lines do.
    #[inline(always)]
    pub fn walk(&self, whole: bool) -> usize
        ensures { 0 < result → whole ≡ false }
    {
        if whole {
            return 0;
        }
        match &self.needle {
            Some(needle) if needle.suffices => 0,
            _ => self.backoff.walk(),
        }
    }

    // Looks for the first line of a block of whole lines that may be matched. No line before it is.
    fn first_line(&self, block: &[u8], whole: bool, meter: &mut Meter) -> Sweep
        requires { IsBlock block.now }
        ensures passes { (e : Expression) → IsPrefilterFor e self.now →
            PassesUnmatched e whole block.now result.start }
        ensures stops { (e : Expression) → IsPrefilterFor e self.now →
            StopsAt e whole block.now result }
        ensures steps { AddsUpTo 0 result.reached meter.old meter.new }
    {
        let Some(needle) = &self.needle else {
            return Sweep::to(0, 0, Stop::Unseen);
        };
        let swept = first_line_with_run(&needle.finder, block, meter);
        let reached = bytes_over(block, swept.place);
        if whole && needle.is_first && is_inside(swept) {
            return Sweep::to(swept.start, reached, Stop::Decided(false));
        }
        if needle.suffices && !whole && has_run(&needle.finder, block, swept) {
            return Sweep::to(swept.start, reached, Stop::Decided(true));
        }
        let first = self.first_place(needle, whole, swept);
        Sweep {
            first,
            ..Sweep::to(swept.start, reached, Stop::Seen)
        }
    }

    // From which place on the line is searched in which a look for the needle stopped: from the needle's,
    // if each match begins with it, wherever its line begins.
    #[inline(always)]
    fn first_place(&self, needle: &Needle, whole: bool, swept: Swept) -> usize
        ensures { (result ≡ swept.start) ⊎ (IsTrue needle.now.is_first × (whole ≡ false)
            × (self.now.has_begin ≡ false) × (swept.place ≡ Some result)) }
    {
        let Some(place) = swept.place else {
            return swept.start;
        };
        if needle.is_first && !whole && !self.has_begin {
            return place;
        }
        swept.start
    }

    /// Where the next match of the line is, if the whole line need not be matched.
    #[inline(always)]
    pub fn next_match(&self, edges: &Edges, line: &[u8], from: usize, meter: &mut Meter) -> Ahead
        requires { from < length line.now }
        ensures { (e : Expression) → IsPrefilterFor e self.now → AreEdgesFor e edges.now →
            IsSaid e line.now from meter.old meter.new result }
    {
        let needle = match &self.needle {
            Some(needle) if needle.is_sought() => needle,
            _ => return edges.next(line, from, meter),
        };
        let Some(place) = needle.finder.find(&line[from..], meter) else {
            return Ahead::Nothing;
        };
        let near = from + place;
        if !needle.is_all {
            return Ahead::In(window_at(needle, edges, line, from, near, meter));
        }
        let Some(end) = needle.finder.longest_end(line, near) else {
            return Ahead::Nothing;
        };
        Ahead::Part(Span { start: near, end })
    }

    /// Passes whole lines of a block of whole lines, none of which is matched. Each of their bytes is
    /// a step. None are passed if a look isn't worth while.
    #[inline(always)]
    pub fn sweep(&self, block: &[u8], whole: bool, meter: &mut Meter) -> Sweep
        requires { IsBlock block.now }
        ensures passes { (e : Expression) → IsPrefilterFor e self.now →
            PassesUnmatched e whole block.now result.start }
        ensures stops { (e : Expression) → IsPrefilterFor e self.now →
            StopsAt e whole block.now result }
        ensures steps { AddsJust result.start result.reached meter.old meter.new }
    {
        if block.is_empty() || !self.backoff.should_scan() {
            return Sweep::to(0, 0, Stop::Unseen);
        }
        let sweep = self.first_line(block, whole, meter);
        if !self.has_string(sweep.stop) {
            self.backoff.note(sweep.first);
        }
        meter.add_built(sweep.start as u64);
        sweep
    }
}

// The stretch in which the next match is, where the needle's next place is `near`: from there on, if
// each match begins with the needle, else from the bytes before it on that matches can have.
fn window_at(
    needle: &Needle,
    edges: &Edges,
    line: &[u8],
    from: usize,
    near: usize,
    meter: &mut Meter,
) -> Window
    requires low { from ≤ near }
    requires within { near < length line.now }
    requires next { FindsRun (drop from line.now) (runs_of needle.now.finder) (Some (near - from)) }
    ensures { (e : Expression) (before : Steps) → IsNeedleOf e needle.now → AreEdgesFor e edges.now →
        AddsUpTo 0 (near + 1 - from) before meter.old → PassesAtLeast (near - from) before meter.old →
        IsSaid e line.now from before meter.new (In result) }
{
    if needle.is_first {
        let end = edges.end(line, near, meter);
        return Window { start: near, end };
    }
    let Some(start) = edges.start(line, from, near, meter) else {
        return rest_of(line, from);
    };
    let end = edges.end(line, near, meter);
    Window { start, end }
}

// Whether a look found a run that its line doesn't begin with.
fn is_inside(swept: Swept) -> bool
    ensures { IsTrue result → (at : ℕ) × (swept.place ≡ Some at) × (swept.start < at) }
{
    match swept.place {
        Some(at) => swept.start < at,
        None => false,
    }
}

// Whether the run that a look found is surely in one line: as many bytes as the longest has are before
// the next newline. A run of sets may go over one.
fn has_run(finder: &RunFinder, block: &[u8], swept: Swept) -> bool
    requires { FindsRun block.now (runs_of finder.now) swept.place }
    ensures { IsTrue result → (at : ℕ) × (swept.place ≡ Some at)
        × HasNoNewline (slice_range block.now at
        (at + min (longest_of (runs_of finder.now)) (length block.now - at))) }
{
    let Some(at) = swept.place else {
        return false;
    };
    match line_end(block, at) {
        Some(end) => finder.longest() <= end - at,
        None => false,
    }
}
