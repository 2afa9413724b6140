//! The steps over a line for many fixed strings.
ghost use Rattle.std.specs.Prelude.{IsTrue, IfSome, [], ◌↔◌, Some, length, slice_index, ◌≡◌, ◌<◌};
ghost use Rattle.std.specs.Prelude.{◌^◌, ℕ, ◌∷◌, ◌+◌, ◌≤◌, ◌++◌};
ghost use Rattle.re_trees.specs.{declared.span.Span.Span, Bytes.Text};
ghost use Rattle.re_strings.specs.Working.FixedSets.{Labels, StandsSince, IsString, AreFallbacksOf};
ghost use Rattle.re_strings.specs.Working.FixedSets.{IsBestOccurrence, StandsAtNode, IsTrieOf};
ghost use Rattle.re_strings.specs.Working.FixedSets.{IsTable, AreSteps, better_ending, AreStepsOf};
ghost use Rattle.re_strings.specs.Working.FixedSets.{IsTrie, IsTableOf, NoneBetween, AreFallbacks};
ghost use Rattle.re_strings.specs.Working.{FixedSets.{EndsIn, Occurs, StepsOn}, Keys.keys};
ghost use Rattle.re_strings.specs.Working.Reached.{IsSettled, Reaches, EndsFirst, IsNear, end_cost};
ghost use Rattle.re_meter.specs.Meters.{many_passed};

use crate::keys::key_of;
use crate::leaps::{Leaps, Payoff};
use crate::step_rows::StepRows;
use crate::trie::Trie;
use re_meter::Meter;
use re_trees::Span;

/// The Aho-Corasick automaton: what is known of each node of a trie.
#[derive(Drop)]
pub struct AhoCorasick {
    /// The nodes.
    pub trie: Trie,
    /// The steps at the first nodes: at these no children are searched.
    pub steps: StepRows,
    /// For each node the longest other one that it ends with; any value for the root.
    pub fails: Vec<u32>,
    /// The length of each node.
    pub depths: Vec<u32>,
    /// The longest string, not the empty one, that each node ends with; the root if there is none.
    pub outputs: Vec<u32>,
    /// How far a search may leap at the root.
    pub leaps: Leaps,
    /// The same by the two bytes where it stands, with which some string may begin.
    pub fronts: Leaps,
    /// Whether both cases of each letter of a line are alike; the strings are then in lower case.
    pub fold: bool,
}

impl AhoCorasick {
    /// Whether a search of the line leaps.
    pub fn leaps_in(&self, line: &[u8], payoff: &Payoff) -> bool
        requires { IsTable self.now }
    {
        payoff.of(&self.leaps, line, self.fold)
    }

    /// The place at which a string, not the empty one, ends first in the line. The bytes up to there
    /// are passed; all if no string occurs. `leaps` says whether to leap.
    pub fn first_end(&self, line: &[u8], leaps: bool, meter: &mut Meter) -> Option<usize>
        requires { IsTable self.now }
        ensures ends { (all : Labels) → IsTableOf all self.now →
            EndsFirst all.strings (keys self.now.fold line.now) result }
        ensures within { IfSome result (λ end. (1 ≤ end) × (end ≤ length line.now)) }
        ensures counted { meter.new ≡ many_passed (end_cost line.now result) meter.old }
    {
        let end = self.ended(line, leaps);
        meter.add_passed(end.unwrap_or(line.len()));
        end
    }

    // The place at which a string ends first in the line.
    #[inline(always)]
    fn ended(&self, line: &[u8], leaps: bool) -> Option<usize>
        requires { IsTable self.now }
        ensures ends { (all : Labels) → IsTableOf all self.now →
            EndsFirst all.strings (keys self.now.fold line.now) result }
        ensures within { IfSome result (λ end. (1 ≤ end) × (end ≤ length line.now)) }
    {
        if leaps {
            return self.ended_in::<true>(line);
        }
        self.ended_in::<false>(line)
    }

    // The same where the compiler knows whether to leap. The loops of one case take no registers of
    // the other's.
    #[inline(never)]
    fn ended_in<const LEAPS: bool>(&self, line: &[u8]) -> Option<usize>
        requires { IsTable self.now }
        ensures ends { (all : Labels) → IsTableOf all self.now →
            EndsFirst all.strings (keys self.now.fold line.now) result }
        ensures within { IfSome result (λ end. (1 ≤ end) × (end ≤ length line.now)) }
    {
        if self.fold {
            return self.ended_by(line, true, LEAPS);
        }
        self.ended_by(line, false, LEAPS)
    }

    // The same with a `fold` that the compiler knows too, so that there is a loop for each case.
    #[inline(always)]
    fn ended_by(&self, line: &[u8], fold: bool, leaps: bool) -> Option<usize>
        requires table { IsTable self.now }
        requires alike { fold ≡ self.now.fold }
        ensures ends { (all : Labels) → IsTableOf all self.now →
            EndsFirst all.strings (keys self.now.fold line.now) result }
        ensures within { IfSome result (λ end. (1 ≤ end) × (end ≤ length line.now)) }
    {
        let mut place = 0;
        let mut node = 0;
        'places: while place < line.len() {
            let (beyond, into) = self.pass(line, place, node, fold, leaps);
            place = beyond;
            node = into;
            if self.outputs[node] > 0 {
                return Some(place);
            }
        }
        None
    }

    /// The leftmost-longest of the strings in the line that begin at `from` or later. Counts the
    /// bytes up to where no other string can go on. `leaps` says whether to leap.
    pub fn find(&self, line: &[u8], from: usize, leaps: bool, meter: &mut Meter) -> Option<Span>
        requires table { IsTable self.now }
        requires within { from ≤ length line.now }
        ensures best { (all : Labels) → IsTableOf all self.now →
            IsBestOccurrence all.strings from (keys self.now.fold line.now) (length line.now)
            result }
        ensures reached { Reaches (IsSettled self.now line.now from result)
            (IsNear self.now result) line.now from meter.old meter.new }
    {
        if leaps {
            return self.find_in::<true>(line, from, meter);
        }
        self.find_in::<false>(line, from, meter)
    }

    // The same where the compiler knows whether to leap.
    #[inline(never)]
    fn find_in<const LEAPS: bool>(
        &self,
        line: &[u8],
        from: usize,
        meter: &mut Meter,
    ) -> Option<Span>
        requires table { IsTable self.now }
        requires within { from ≤ length line.now }
        ensures best { (all : Labels) → IsTableOf all self.now →
            IsBestOccurrence all.strings from (keys self.now.fold line.now) (length line.now)
            result }
        ensures reached { Reaches (IsSettled self.now line.now from result)
            (IsNear self.now result) line.now from meter.old meter.new }
    {
        if self.fold {
            return self.find_by(line, from, meter, true, LEAPS);
        }
        self.find_by(line, from, meter, false, LEAPS)
    }

    // The same with a `fold` that the compiler knows too.
    #[inline(always)]
    fn find_by(
        &self,
        line: &[u8],
        from: usize,
        meter: &mut Meter,
        fold: bool,
        leaps: bool,
    ) -> Option<Span>
        requires table { IsTable self.now }
        requires within { from ≤ length line.now }
        requires alike { fold ≡ self.now.fold }
        ensures best { (all : Labels) → IsTableOf all self.now →
            IsBestOccurrence all.strings from (keys self.now.fold line.now) (length line.now)
            result }
        ensures reached { Reaches (IsSettled self.now line.now from result)
            (IsNear self.now result) line.now from meter.old meter.new }
    {
        let mut place = from;
        let mut node = 0;
        let mut best = None;
        'places: while place < line.len() {
            let (beyond, into) = self.pass(line, place, node, fold, leaps);
            place = beyond;
            node = into;
            if begins_before(best, place.saturating_sub(self.depths[node] as usize)) {
                meter.add_passed(place - from);
                return best;
            }
            best = better(best, place, self.ending(node));
        }
        meter.add_passed(place - from);
        best
    }

    /// Whether the line, which is not empty, is one of the strings.
    pub fn is_line(&self, line: &[u8]) -> bool
        requires table { IsTable self.now }
        requires some { 0 < length line.now }
        ensures { (all : Labels) → IsTableOf all self.now →
            IsTrue result ↔ IsString all.strings (keys self.now.fold line.now) }
    {
        let mut node = 0;
        'places: for place in 0..line.len() {
            let Some(child) = self.trie.child(node, key_of(self.fold, line[place])) else {
                return false;
            };
            node = child;
        }
        self.ending(node) == line.len()
    }

    // The length of the longest string that the node ends with, 0 if there is none.
    #[inline(always)]
    fn ending(&self, node: usize) -> usize
        requires table { IsTable self.now }
        requires in_trie { node < length self.now.trie.bytes.items }
        ensures { (all : Labels) → IsTableOf all self.now →
            EndsIn all.strings (all.label node) result }
    {
        self.depths[self.outputs[node] as usize] as usize
    }

    // Goes over the byte at `place`. If no string has begun, it first passes the bytes where none
    // begins. Returns the place after the byte, and the node there.
    #[inline(always)]
    fn pass(
        &self,
        line: &[u8],
        place: usize,
        node: usize,
        fold: bool,
        leaps: bool,
    ) -> (usize, usize)
        requires table { IsTable self.now }
        requires within { place < length line.now }
        requires in_trie { node < length self.now.trie.bytes.items }
        requires alike { fold ≡ self.now.fold }
        ensures on { (place < result.0) × (result.0 ≤ length line.now) }
        ensures next { 0 < node → result.0 ≡ place + 1 }
        ensures in_trie { result.1 < length self.now.trie.bytes.items }
        ensures stands { (all : Labels) → IsTableOf all self.now → (from : ℕ) → from ≤ place →
            StandsSince all from (keys self.now.fold line.now) place node
            → StandsSince all from (keys self.now.fold line.now) result.0 result.1 }
        ensures between { (all : Labels) → IsTableOf all self.now → (from : ℕ) → from ≤ place →
            StandsSince all from (keys self.now.fold line.now) place node
            → NoneBetween all.strings from (keys self.now.fold line.now) place result.0 }
        ensures begun { (all : Labels) → IsTableOf all self.now → (from : ℕ) → 0 < node →
            StandsAtNode all from (keys self.now.fold line.now) place node
            → StandsAtNode all from (keys self.now.fold line.now) result.0 result.1 }
    {
        let start = self.next_start(line, place, node, fold, leaps);
        if start == line.len() {
            return (start, node);
        }
        let byte = key_of(fold, line[start]);
        let into = step(&self.trie, &self.steps, &self.fails, node, byte);
        (start + 1, into)
    }

    // The place itself if a string has begun, or if no leaps are made; else the first place from there on
    // where one may begin, or the line's end if there is none.
    #[inline(always)]
    fn next_start(&self, line: &[u8], place: usize, node: usize, fold: bool, leaps: bool) -> usize
        requires table { IsTable self.now }
        requires within { place < length line.now }
        requires alike { fold ≡ self.now.fold }
        ensures within { (place ≤ result) × (result ≤ length line.now) }
        ensures begun { 0 < node → result ≡ place }
        ensures stands { (all : Labels) → IsTableOf all self.now → (from : ℕ) → from ≤ place →
            StandsSince all from (keys self.now.fold line.now) place node
            → StandsSince all from (keys self.now.fold line.now) result node }
        ensures between { (all : Labels) → IsTableOf all self.now → (from : ℕ) → from ≤ place →
            StandsSince all from (keys self.now.fold line.now) place node
            → NoneBetween all.strings from (keys self.now.fold line.now) place (result + 1) }
    {
        if !leaps {
            return place;
        }
        if node > 0 {
            return place;
        }
        if self.leaps.window < 2 {
            return place;
        }
        self.leaps.leap(&self.fronts, line, place, fold)
    }
}

// The node for the longest end of the bytes so far, after this byte.
#[inline(always)]
pub fn step(trie: &Trie, steps: &StepRows, fails: &[u32], node: usize, byte: u8) -> usize
    requires trie { IsTrie trie.now.first.items trie.now.bytes.items }
    requires steps { AreSteps trie.now.first.items steps.now }
    requires fails { AreFallbacks fails.now }
    requires few { length fails.now ≤ length trie.now.bytes.items }
    requires small { length trie.now.bytes.items < 2 ^ 32 }
    requires within { node < length fails.now }
    ensures within { result < length trie.now.bytes.items }
    ensures near { result < slice_index trie.now.first.items (node + 1) }
    ensures step { (all : Labels) → IsTrieOf all trie.now.first.items trie.now.bytes.items →
        AreStepsOf all steps.now → AreFallbacksOf all fails.now → StepsOn all node byte result }
{
    let width = steps.bytes.len();
    let class = steps.classes[byte as usize] as usize;
    let mut at = node;
    'nodes: while at * width + class >= steps.cells.len() {
        if let Some(child) = trie.child(at, byte) {
            return child;
        }
        at = fails[at] as usize;
    }
    steps.cells[at * width + class] as usize
}

// Whether the best so far begins before this place.
fn begins_before(best: Option<Span>, place: usize) -> bool
    ensures { IsTrue result ↔ ((known : Span) × (best ≡ Some known) × (known.start < place)) }
{
    match best {
        Some(known) => known.start < place,
        None => false,
    }
}

// The better of the best so far and a string of this length that ends at `end`. There is no such
// string if the length is 0.
fn better(best: Option<Span>, end: usize, length: usize) -> Option<Span>
    ensures { result ≡ better_ending best end length }
{
    if length == 0 {
        return best;
    }
    let start = end.saturating_sub(length);
    match best {
        Some(known) if known.start < start => best,
        _ => Some(Span { start, end }),
    }
}
