//! Runs of sets of bytes, one of which is looked for.
ghost use Rattle.std.specs.Prelude.{◌≡◌, ◌↔◌, ◌⊎◌, ◌+◌, ◌<◌, ◌≤◌, Some, IfSome, IsTrue};
ghost use Rattle.std.specs.Prelude.{MatchOption, length, map};
ghost use Rattle.{re_trees.specs.Working.Trees.members, re_runs.specs.Working.Runs.IsLongestRun};
ghost use Rattle.re_runs.specs.Working.Runs.{HaveBitsAt, IsNoWider, RunIsAt, RunStandsAt, longest_of};
ghost use Rattle.re_runs.specs.Working.Runs.{sets_of_each, set_at};

use re_trees::ByteSet;

/// How many sets the shortest run has; 0 if there is no run.
pub fn shortest(runs: &[Vec<ByteSet>]) -> usize
    ensures { IsNoWider result (sets_of_each runs.now) }
{
    let Some(first) = runs.first() else {
        return 0;
    };
    let mut width = first.len();
    'runs: for number in 1..runs.len() {
        width = width.min(runs[number].len());
    }
    width
}

/// How many sets the longest run has; 0 if there is no run.
pub fn longest(runs: &[Vec<ByteSet>]) -> usize
    ensures { result ≡ longest_of (sets_of_each runs.now) }
{
    let mut longest: usize = 0;
    'runs: for number in 0..runs.len() {
        longest = longest.max(runs[number].len());
    }
    longest
}

/// Whether the line has a byte of each set of some run, from the place on. Each run has one of eight
/// bits, and is only there if `bits` has it.
#[inline(always)]
pub fn take_some(runs: &[Vec<ByteSet>], bits: u8, line: &[u8], place: usize) -> bool
    requires within { place ≤ length line.now }
    requires bits { HaveBitsAt line.now place (sets_of_each runs.now) bits }
    ensures { IsTrue result ↔ RunStandsAt line.now (sets_of_each runs.now) place }
{
    'runs: for number in 0..runs.len() {
        if bits >> (number % 8) & 1 == 0 {
            continue 'runs;
        }
        if is_at(&runs[number], line, place) {
            return true;
        }
    }
    false
}

/// Where the longest of the runs ends that the line has at the place; `None` if it has none there.
pub fn longest_end(runs: &[Vec<ByteSet>], line: &[u8], place: usize) -> Option<usize>
    requires { place ≤ length line.now }
    ensures { MatchOption result (¬ RunStandsAt line.now (sets_of_each runs.now) place)
        (IsLongestRun line.now (sets_of_each runs.now) place) }
{
    let mut longest: Option<usize> = None;
    'runs: for number in 0..runs.len() {
        let run = runs[number].as_slice();
        if is_at(run, line, place) {
            longest = Some(later(longest, place + run.len()));
        }
    }
    longest
}

// The later of the two places, or `end` if the other is `None`.
fn later(known: Option<usize>, end: usize) -> usize
    ensures low { end ≤ result }
    ensures known { IfSome known (λ place. place ≤ result) }
    ensures one { (result ≡ end) ⊎ (known ≡ Some result) }
{
    match known {
        Some(place) if place > end => place,
        _ => end,
    }
}

// Whether the line has a byte of each of the run's sets, from the place on.
#[inline(always)]
fn is_at(run: &[ByteSet], line: &[u8], place: usize) -> bool
    requires { place ≤ length line.now }
    ensures { IsTrue result ↔ RunIsAt line.now place (map members run.now) }
{
    if run.len() > line.len() - place {
        return false;
    }
    takes_run(run, line, place)
}

// The same where the line has enough bytes.
#[inline(always)]
fn takes_run(run: &[ByteSet], line: &[u8], place: usize) -> bool
    requires { place + length run.now ≤ length line.now }
    ensures { IsTrue result ↔ RunIsAt line.now place (map members run.now) }
{
    'sets: for j in 0..run.len() {
        if !takes(run, j, line[place + j]) {
            return false;
        }
    }
    true
}

// Whether the byte is in the set at the place of the run.
#[inline(always)]
fn takes(run: &[ByteSet], j: usize, byte: u8) -> bool
    requires { j < length run.now }
    ensures { result ≡ set_at (map members run.now) j byte }
{
    run[j].has(byte)
}
