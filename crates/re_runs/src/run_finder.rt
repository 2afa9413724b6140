//! Search for runs, one of which every match contains.
ghost use Rattle.std.specs.Prelude.{◌≡◌, ◌↔◌, IsTrue, IfOk, IfSome, MatchOption, ◌≤◌, List, length};
ghost use Rattle.std.specs.Prelude.{map, min};
ghost use Rattle.{re_meter.specs.Meters.many_passed, re_trees.specs.Bytes.{Bytes, only}};
ghost use Rattle.{re_trees.specs.Working.Trees.members, re_runs.specs.Working.Finders.runs_of};
ghost use Rattle.re_runs.specs.Working.Runs.{FindsRun, IsLongestRun, RunStandsAt, front_of};
ghost use Rattle.re_runs.specs.Working.Runs.{longest_of, look_cost, one_run};

use crate::set_finder::SetFinder;
use crate::text_finder::find_text;
use memchr::memmem::Finder;
use re_meter::Meter;
use re_trees::ByteSet;
use std::alloc::{AllocError, Global};

// How many sets of a run are looked for at most where those of several runs are looked for at once.
const MOST_SETS: usize = 32;

/// Looks for a string or for runs of sets of bytes.
#[derive(Drop)]
pub enum RunFinder {
    /// Looks for this string.
    Text(Finder<'static>),
    /// Looks for one of these runs.
    Sets(SetFinder),
}

impl RunFinder {
    /// The first place of the line where a run is. The bytes up to there are passed; all if none is
    /// anywhere.
    #[inline]
    pub fn find(&self, line: &[u8], meter: &mut Meter) -> Option<usize>
        ensures found { FindsRun line.now (runs_of self.now) result }
        ensures counted { meter.new ≡ many_passed (look_cost line.now result) meter.old }
    {
        match self {
            RunFinder::Text(finder) => find_text(finder, line, meter),
            RunFinder::Sets(finder) => finder.find(line, meter),
        }
    }

    /// Whether the line begins with a run. As many bytes are passed as the longest has, or all bytes of
    /// the line if these are fewer.
    #[inline(always)]
    pub fn begins(&self, line: &[u8], meter: &mut Meter) -> bool
        ensures reported { IsTrue result ↔ RunStandsAt line.now (runs_of self.now) 0 }
        ensures counted { meter.new ≡
            many_passed (min (longest_of (runs_of self.now)) (length line.now)) meter.old }
    {
        match self {
            RunFinder::Text(finder) => {
                let text = finder.needle();
                meter.add_passed(text.len().min(line.len()));
                begins_with(line, text)
            }
            RunFinder::Sets(finder) => {
                meter.add_passed(finder.longest().min(line.len()));
                finder.begins(line)
            }
        }
    }

    /// Where the longest of the runs ends that are in the line at the place; `None` if none is.
    pub fn longest_end(&self, line: &[u8], place: usize) -> Option<usize>
        requires { place ≤ length line.now }
        ensures { MatchOption result (¬ RunStandsAt line.now (runs_of self.now) place)
            (IsLongestRun line.now (runs_of self.now) place) }
    {
        match self {
            RunFinder::Text(finder) => text_end(finder.needle(), line, place),
            RunFinder::Sets(finder) => finder.longest_end(line, place),
        }
    }

    /// How many bytes the longest run has.
    pub fn longest(&self) -> usize
        ensures { result ≡ longest_of (runs_of self.now) }
    {
        match self {
            RunFinder::Text(finder) => finder.needle().len(),
            RunFinder::Sets(finder) => finder.longest(),
        }
    }

    /// The first sets of the run, 32 at most, if it looks for one run. The one error is that an
    /// allocation failed.
    pub fn sets(&self, alloc: Global) -> Result<Vec<ByteSet>, AllocError>
        ensures { IfOk result (λ sets. (run : List Bytes) → runs_of self.now ≡ one_run run →
            map members sets.items ≡ front_of run) }
    {
        match self {
            RunFinder::Text(finder) => sets_of(alloc, finder.needle()),
            RunFinder::Sets(finder) => first_sets(alloc, finder.first_run()),
        }
    }

    /// The string, where it looks for one.
    pub fn text(&self) -> Option<&[u8]>
        ensures { IfSome result (λ text. runs_of self.now ≡ one_run (map only text.now)) }
    {
        match self {
            RunFinder::Text(finder) => Some(finder.needle()),
            RunFinder::Sets(_) => None,
        }
    }
}

/// Whether the line begins with the text. Most lines differ in its first byte, before any call.
#[inline(always)]
pub fn begins_with(line: &[u8], text: &[u8]) -> bool
    ensures { IsTrue result ↔ RunStandsAt line.now (one_run (map only text.now)) 0 }
{
    if line.len() < text.len() {
        return false;
    }
    'bytes: for place in 0..text.len() {
        if line[place] != text[place] {
            return false;
        }
    }
    true
}

// Where the text ends, if it is in the line at the place.
fn text_end(text: &[u8], line: &[u8], place: usize) -> Option<usize>
    requires { place ≤ length line.now }
    ensures { MatchOption result (¬ RunStandsAt line.now (one_run (map only text.now)) place)
        (IsLongestRun line.now (one_run (map only text.now)) place) }
{
    if !begins_with(&line[place..], text) {
        return None;
    }
    Some(place + text.len())
}

/// A set for each of the first bytes of a string, 32 at most, with this byte alone. The one error is
/// that an allocation failed.
pub fn sets_of(alloc: Global, text: &[u8]) -> Result<Vec<ByteSet>, AllocError>
    ensures { IfOk result (λ sets. map members sets.items ≡ front_of (map only text.now)) }
{
    let mut sets = Vec::new(alloc);
    'bytes: for place in 0..MOST_SETS.min(text.len()) {
        sets.push(ByteSet::only(text[place]))?;
    }
    Ok(sets)
}

// The first sets, 32 at most.
fn first_sets(alloc: Global, sets: &[ByteSet]) -> Result<Vec<ByteSet>, AllocError>
    ensures { IfOk result (λ first. map members first.items ≡ front_of (map members sets.now)) }
{
    let mut first = Vec::new(alloc);
    first.extend_from_slice(&sets[..MOST_SETS.min(sets.len())])?;
    Ok(first)
}
