//! Matchers made from the texts of patterns.
ghost use Rattle.std.specs.Prelude.{true, vec_capacity, ◌↔◌, IfErr, ◌+◌, ◌≡◌, ◌-◌, [], false};
ghost use Rattle.std.specs.Prelude.{IsTrue, ◌≤◌, ◌∷◌, IfOk, length, ◌⊎◌, ◌<◌};
ghost use Rattle.re_syntax.specs.Profile.{most_states, most_positions};
ghost use Rattle.re_syntax.specs.{Working.Trees.expression_of, Spelled.{has_limit, IsMeant}};
ghost use Rattle.re_syntax.specs.Holds.{Matches, positions};
ghost use Rattle.re_search.specs.Working.Matchers.{IsSame, is_fixed, entries_of, CountsSteps};
ghost use Rattle.re_search.specs.Working.Matchers.{wants_whole, matched_expression, room_of};
ghost use Rattle.re_search.specs.Reading.{IsReadable, IsOutOfMemory, IsSmallFor, IsRefusedFor};
ghost use Rattle.{re_auto.specs.Searches.FindsPart, re_meter.specs.Meters.AddsAtMost};

use crate::pattern::read_pattern;
use crate::strings::string_of;
use re_auto::Meter;
use re_match::{Ahead, Cached, LineMatch, Strings, Window};
use re_syntax::{FaultKind, PatternFault, Span, Syntax, Tree};
use std::alloc::{AllocError, Global};
use std::num::NonZeroUsize;

/// A matcher of any kind. The large ones are boxed, so that a matcher is moved and dropped as a
/// pointer.
#[derive(Drop)]
pub enum Matcher {
    /// Looks for strings.
    Strings(Strings),
    /// Steps an automaton, and keeps the steps between its sets of positions.
    Cached(Box<Cached>),
}

impl Matcher {
    /// The matcher for the text of a pattern, by [`read_pattern`] and `Pattern::into_matcher`.
    ///
    /// # Errors
    ///
    /// Those of [`read_pattern`].
    pub fn new(
        alloc: Global,
        text: &[u8],
        syntax: Syntax,
        fold: bool,
        whole: bool,
        states: usize,
    ) -> Result<Matcher, PatternFault>
        requires { (1 ≤ states) × (states ≤ most_states) }
        ensures meant { IfOk result (λ m. IsMeant syntax fold text.now (matched_expression m)) }
        ensures whole { IfOk result (λ m. wants_whole m ≡ whole) }
        ensures small { IfOk result (λ m. IsSmallFor syntax fold (matched_expression m)) }
        ensures kind { IfOk result (λ m. has_limit syntax fold ≡ false → is_fixed m ≡ true) }
        ensures room { IfOk result (λ m. room_of m ≤ states) }
        ensures empty { IfOk result (λ m. entries_of m ≡ []) }
        ensures refused { IfErr result
            (λ fault. IsOutOfMemory fault ⊎ IsRefusedFor syntax fold text.now fault) }
        ensures unreadable { IfErr result
            (λ fault. IsOutOfMemory fault ⊎ (IsReadable syntax fold text.now → ⊥)) }
    {
        let pattern = read_pattern(alloc, text, syntax, fold)?;
        match pattern.into_matcher(alloc, fold, whole, states) {
            Ok(matcher) => Ok(matcher),
            Err(_) => Err(fault_at_first(FaultKind::Memory)),
        }
    }

    /// How many entries its cache has; 0 if it has no cache.
    pub fn cached(&self) -> usize
        ensures held { result ≡ length (entries_of self.now) }
        ensures few { result ≤ room_of self.now }
    {
        match self {
            Matcher::Cached(cached) => cached.cached(),
            _ => 0,
        }
    }
}

impl LineMatch for Matcher {
    ghost use Rattle.re_search.specs.Working.Matchers.{matched_expression, wants_whole, room_of};

    ghost expression = { matched_expression };

    ghost whole = { wants_whole };

    ghost room = { room_of };

    fn is_match(&mut self, line: &[u8], meter: &mut Meter) -> bool
        ensures reported { IsTrue result ↔
            Matches (matched_expression self.old) line.now (wants_whole self.old) }
        ensures steps { AddsAtMost (length line.now + 1) meter.old meter.new }
        ensures counted { CountsSteps line.now self.old meter.old self.new meter.new result }
        ensures same { IsSame self.old self.new }
    {
        match self {
            Matcher::Strings(strings) => strings.is_match(line, meter),
            Matcher::Cached(cached) => cached.is_match(line, meter),
        }
    }

    fn find(&mut self, line: &[u8], from: usize, meter: &mut Meter) -> Option<Span>
        requires { from ≤ length line.now }
        ensures reported { FindsPart (matched_expression self.old ∷ []) line.now false from result }
        ensures steps { AddsAtMost (length line.now - from + 1) meter.old meter.new }
        ensures same_entries { entries_of self.new ≡ entries_of self.old }
        ensures same { IsSame self.old self.new }
    {
        match self {
            Matcher::Strings(strings) => strings.find(line, from, meter),
            Matcher::Cached(cached) => cached.find(line, from, meter),
        }
    }

    fn next_window(&mut self, line: &[u8], from: usize, meter: &mut Meter) -> Ahead {
        match self {
            Matcher::Strings(strings) => strings.next_window(line, from, meter),
            Matcher::Cached(cached) => cached.next_window(line, from, meter),
        }
    }

    fn add_ends(
        &mut self,
        line: &[u8],
        window: Window,
        ends: &mut [usize],
        spare: &mut Vec<usize>,
        meter: &mut Meter,
    ) {
        match self {
            Matcher::Strings(strings) => strings.add_ends(line, window, ends, spare, meter),
            Matcher::Cached(cached) => cached.add_ends(line, window, ends, spare, meter),
        }
    }

    fn next_matched(&mut self, block: &[u8], meter: &mut Meter) -> Option<Span> {
        match self {
            Matcher::Strings(strings) => strings.next_matched(block, meter),
            Matcher::Cached(cached) => cached.next_matched(block, meter),
        }
    }
}

/// The matcher for a tree that is not too large: it looks for a string, or steps an automaton.
pub(crate) fn tree_matcher(
    alloc: Global,
    tree: Tree,
    whole: bool,
    states: usize,
) -> Result<Matcher, AllocError>
    requires small { positions (expression_of tree) ≤ most_positions }
    requires some { 1 ≤ states }
    ensures expression { IfOk result (λ m. matched_expression m ≡ expression_of tree) }
    ensures whole { IfOk result (λ m. wants_whole m ≡ whole) }
    ensures room { IfOk result (λ m. room_of m ≤ states) }
    ensures empty { IfOk result (λ m. entries_of m ≡ []) }
{
    if let Some(string) = string_of(alloc, &tree) {
        return Ok(Matcher::Strings(Strings::one(alloc, &string, whole)?));
    }
    let Some(most) = NonZeroUsize::new(states) else {
        unreachable!();
    };
    let Ok(cached) = Cached::new(alloc, tree, whole, most) else {
        return Err(AllocError);
    };
    let cached = Box::new(alloc, cached)?;
    Ok(Matcher::Cached(cached))
}

/// A fault of the whole text, reported at its first place.
pub(crate) fn fault_at_first(kind: FaultKind) -> PatternFault
    ensures { result ≡ record { kind = kind; at = 0 } }
{
    PatternFault { kind, at: 0 }
}
