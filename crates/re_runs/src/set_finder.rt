//! Search for runs of small sets of bytes.
ghost use Rattle.std.specs.Prelude.{◌≡◌, ℕ, ◌+◌, ◌<◌, ◌≤◌, ◌↔◌, ◌∷◌, [], List, IsTrue, IfOk};
ghost use Rattle.std.specs.{Prelude.{IfSome, MatchOption, length, map}, Int.bit_at};
ghost use Rattle.memchr.specs.{Lanes.Marks, Find.IsFirst};
ghost use Rattle.re_trees.specs.{declared.bytes.ByteSet.ByteSet, Working.Trees.members};
ghost use Rattle.re_runs.specs.Working.Runs.{AllPass, AreProbesOf, FindsRun, HaveBitsAt};
ghost use Rattle.re_runs.specs.Working.Runs.{HaveRoom, IsLongestRun, IsNoWider, RunStandsAt, longest_of};
ghost use Rattle.re_runs.specs.Working.Runs.{look_cost, members_of, sets_of_each};
ghost use Rattle.re_meter.specs.Meters.{many_passed};

use crate::lanes::{lowest, without};
use crate::probes::Probes;
use crate::rare_places::{rare_places, stops_at};
use crate::runs::{longest, longest_end, shortest, take_some};
use crate::survey::share_with;
use crate::text_finder::bytes_over;
use re_meter::Meter;
use re_trees::ByteSet;
use std::alloc::{AllocError, Global};
use std::marker::Model;

// Probes are passed rarely if they are passed at no more than about this number of places in 65,536
// bytes of most texts.
const MOST_STOPS: u64 = 256;

// So many places may pass where runs are compared without further tests.
const MANY_STOPS: u64 = 1_024;

// Runs of so few sets are compared sooner than further tests are made at 32 places.
const FEW_SETS: usize = 4;

/// Looks for the first of several runs of sets, one byte of each set in turn: for bytes of the rarest
/// sets at 32 places at once, and where these are it compares the others. Contracts see the runs.
#[derive(Drop)]
pub struct SetFinder {
    runs: Vec<Vec<ByteSet>>,
    // How many sets the shortest run has.
    width: usize,
    longest: usize,
    // Whether the cheap tests do: for one run those of bits, for several those of halves.
    cheaply: bool,
    probes: Probes,
    // About how many of 65,536 places of most texts have a run.
    stops: u64,
}

impl Model for SetFinder {
    ghost use Rattle.std.specs.Prelude.{◌≡◌, List, IfSome, map};
    ghost use Rattle.re_trees.specs.declared.bytes.ByteSet.{ByteSet};
    ghost use Rattle.re_runs.specs.Working.Runs.{AreProbesOf, IsNoWider, longest_of, sets_of_each};

    ghost Value = { List (List ByteSet) };

    ghost view = { λ f. map (λ run. run.items) f.runs.items };

    ghost invariant = { λ f. record {
      wide : IsNoWider f.width (sets_of_each f.runs.items);
      longest : f.longest ≡ longest_of (sets_of_each f.runs.items);
      first : AreProbesOf f.probes f.width (sets_of_each f.runs.items);
    } };
}

impl SetFinder {
    /// The search for one of these runs; `None` if there is none, or one has no set. The only error is
    /// that an allocation failed.
    pub fn new(alloc: Global, runs: Vec<Vec<ByteSet>>) -> Result<Option<SetFinder>, AllocError>
        ensures runs { IfOk result
            (λ found. IfSome found (λ f. f ≡ map (λ run. run.items) runs.items)) }
        ensures some { IfOk result (λ found. IfSome found (λ f. IsNoWider 1 (members_of f))) }
    {
        let width = shortest(&runs);
        let longest = longest(&runs);
        let places = rare_places(alloc, &runs, width)?;
        let Some(probes) = Probes::of(&runs, width, &places) else {
            return Ok(None);
        };
        let cheaply = if runs.len() > 1 {
            are_halves_enough(&runs, &places)
        } else {
            are_bits_enough(&probes, longest)
        };
        let stops = stops_at(&runs, &places);
        Ok(Some(SetFinder {
            runs,
            width,
            longest,
            cheaply,
            probes,
            stops,
        }))
    }

    /// Whether such runs are so rare in most texts that it is worth while to look for them first.
    pub fn is_selective(&self) -> bool {
        self.stops <= MOST_STOPS
    }

    /// About how many of 65,536 places of most texts have a run, by its rarest sets.
    pub fn stops(&self) -> u64 {
        self.stops
    }

    /// The first run; no set if there is none.
    pub fn first_run(&self) -> &[ByteSet]
        ensures { (run : List ByteSet) → self.now ≡ run ∷ [] → result.now ≡ run }
    {
        match self.runs.first() {
            Some(run) => run,
            None => &[],
        }
    }

    /// How many sets the longest run has.
    pub fn longest(&self) -> usize
        ensures { result ≡ longest_of (members_of self.now) }
    {
        self.longest
    }

    /// The first place of the line where a run is. The bytes up to there are passed; all if none is
    /// anywhere.
    pub fn find(&self, line: &[u8], meter: &mut Meter) -> Option<usize>
        ensures found { FindsRun line.now (members_of self.now) result }
        ensures counted { meter.new ≡ many_passed (look_cost line.now result) meter.old }
    {
        let found = self.first_place(line);
        meter.add_passed(bytes_over(line, found));
        found
    }

    // The first place of the line where a run is.
    #[inline(always)]
    fn first_place(&self, line: &[u8]) -> Option<usize>
        ensures found { FindsRun line.now (members_of self.now) result }
        ensures within { IfSome result (λ place. place ≤ length line.now) }
    {
        match (self.cheaply, self.runs.len() > 1) {
            (true, true) => self.find_by::<true, true>(line),
            (true, false) => self.find_by::<true, false>(line),
            (false, true) => self.find_by::<false, true>(line),
            (false, false) => self.find_by::<false, false>(line),
        }
    }

    /// Whether the line begins with a run.
    pub fn begins(&self, line: &[u8]) -> bool
        ensures { IsTrue result ↔ RunStandsAt line.now (members_of self.now) 0 }
    {
        self.stands_at(line, 0)
    }

    /// Where the longest of the runs ends that are in the line at the place; `None` if none is.
    pub fn longest_end(&self, line: &[u8], place: usize) -> Option<usize>
        requires { place ≤ length line.now }
        ensures { MatchOption result (¬ RunStandsAt line.now (members_of self.now) place)
            (IsLongestRun line.now (members_of self.now) place) }
    {
        longest_end(&self.runs, line, place)
    }

    // Whether a run is in the line at the place.
    #[inline(always)]
    fn stands_at(&self, line: &[u8], place: usize) -> bool
        requires { place ≤ length line.now }
        ensures { IsTrue result ↔ RunStandsAt line.now (members_of self.now) place }
    {
        take_some(&self.runs, self.bits_at(line, place), line, place)
    }

    // Bits of the runs that may be in the line at the place. One run alone is not tested once more.
    #[inline(always)]
    fn bits_at(&self, line: &[u8], place: usize) -> u8
        ensures { HaveBitsAt line.now place (members_of self.now) result }
    {
        if self.runs.len() < 2 {
            return u8::MAX;
        }
        self.probes.bits_at(line, place)
    }

    // The same by the cheap tests or by look-ups, which one of several runs, `EACH`, has to pass: 32
    // places at once, or one by one where there are fewer.
    #[inline(always)]
    fn find_by<const CHEAP: bool, const EACH: bool>(&self, line: &[u8]) -> Option<usize>
        requires { IsTrue EACH → 2 ≤ length self.now }
        ensures { FindsRun line.now (members_of self.now) result }
    {
        if line.len() < self.width {
            return None;
        }
        let end = line.len() - self.width + 1;
        if end < 32 {
            return self.first_of_few(line);
        }
        let mut start = 0;
        'runs: while start < end {
            // The last places are tried with some before them once more.
            let from = start.min(end - 32);
            let (at, marks) = self.probes.next_marks::<CHEAP, EACH>(line, from, end);
            let left = self.probes.narrowed::<EACH>(line, at, marks);
            if let Some(place) = self.first_marked(line, at, left) {
                return Some(place);
            }
            start = at + 32;
        }
        None
    }

    // The first place where a run is, tried one by one: the byte of the rarest set first.
    fn first_of_few(&self, line: &[u8]) -> Option<usize>
        ensures { FindsRun line.now (members_of self.now) result }
    {
        let probe = &self.probes.first;
        if line.len() < probe.at {
            return None;
        }
        'places: for place in 0..line.len() - probe.at {
            if probe.nibbles.bits(line[place + probe.at]) != 0 && self.stands_at(line, place) {
                return Some(place);
            }
        }
        None
    }

    // The first marked one of 32 places where a run is.
    #[inline(always)]
    fn first_marked(&self, line: &[u8], start: usize, marks: u64) -> Option<usize>
        requires within { start + 32 ≤ length line.now }
        requires marks { Marks (RunStandsAt line.now (members_of self.now)) start (start + 32)
            marks }
        ensures { IsFirst (RunStandsAt line.now (members_of self.now)) start (start + 32) result }
    {
        let mut left = marks;
        'marks: while left != 0 {
            let bit = lowest(left);
            if self.stands_at(line, start + bit) {
                return Some(start + bit);
            }
            left = without(left, bit);
        }
        None
    }
}

// Whether look-ups of halves do, as four cost what two whole ones cost: the others leave few places
// that the first two leave.
fn are_halves_enough(runs: &[Vec<ByteSet>], places: &[usize]) -> bool {
    let all = stops_at(runs, places).saturating_mul(8);
    places.len() > 2 && all <= stops_at(runs, &places[..2])
}

// Whether two tests of bits do, which are the cheapest: for two letters, and where few places of
// most texts pass. More may pass where runs are compared at once.
fn are_bits_enough(probes: &Probes, longest: usize) -> bool {
    let most = if longest <= FEW_SETS {
        MANY_STOPS
    } else {
        MOST_STOPS
    };
    if are_letters(probes) {
        return true;
    }
    let first = share_with(probes.first.alike);
    first.saturating_mul(share_with(probes.second.alike)) >> 16 <= most
}

// Whether the first two tests of bits are right for their sets, as they are for the cases of letters.
fn are_letters(probes: &Probes) -> bool {
    probes.first.alike.are_nearly_all() && probes.second.alike.are_nearly_all()
}
