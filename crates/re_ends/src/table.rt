//! Greatest ends, found by passes back over a line.
ghost use Rattle.std.specs.Prelude.{IfOk, slice_index, ℕ, slice_range, ◌^◌, ◌<◌, ◌≤◌, ◌+◌, ◌⊎◌};
ghost use Rattle.std.specs.Prelude.{◌-◌, length, ◌≡◌};
ghost use Rattle.{re_trees.specs.Working.Trees.expression_of, re_auto.specs.Meters.many_built};
ghost use Rattle.{re_auto.specs.Meters.many_reused, re_ends.specs.Working.EndTables.IsFirstFrom};
ghost use Rattle.re_ends.specs.Working.EndTables.{AreEndsFor, IsAt, piece};
ghost use Rattle.re_ends.specs.Working.GreatestEnds.{MatchesPast, AddsEnds, IsBorder, FindsIn};

use crate::pass::{Asked, Pass, Spot};
use re_auto::{Automaton, Meter};
use re_trees::Span;
use std::alloc::{AllocError, Global};

// How many places a search goes back at once.
const PIECE: usize = 128;

/// A stretch of a line.
#[derive(Clone, Copy, Drop)]
pub struct Window {
    /// Its first place.
    pub start: usize,
    /// The place after its last byte.
    pub end: usize,
}

/// For an automaton, what is kept of passes back over lines, which give places their greatest ends.
#[derive(Drop)]
pub struct EndTable {
    pass: Pass,
    room: Vec<usize>,
}

// Where a search is, and the first stretch that it has found, whose end is 0 if there is none.
#[derive(Clone, Copy, Drop)]
struct Seen {
    spot: Spot,
    first: Span,
}

impl EndTable {
    /// A table for this automaton. No later call fails: where memory is refused, steps aren't kept.
    pub fn new(alloc: Global, automaton: &Automaton) -> Result<EndTable, AllocError>
        ensures { IfOk result (AreEndsFor (expression_of automaton.now)) }
    {
        let pass = Pass::new(alloc, automaton)?;
        let room = vec![in alloc; 0usize; PIECE]?;
        Ok(EndTable { pass, room })
    }

    /// Gives each place of the window the greatest end of the matched stretches that begin there
    /// and are not empty, where it is greater than the end that the place has. `ends` has a number
    /// for each place of the window. It is one pass back over the window, and each byte is one
    /// step, built or reused.
    pub fn add_ends(&mut self, asked: &Asked, window: Window, ends: &mut [usize], meter: &mut Meter)
        requires made { AreEndsFor (expression_of asked.now.automaton.now) self.old }
        requires low { window.start ≤ window.end }
        requires border { IsBorder (expression_of asked.now.automaton.now) asked.now.line.now
            window.end }
        requires room { length ends.old ≡ window.end - window.start }
        ensures made { AreEndsFor (expression_of asked.now.automaton.now) self.new }
        ensures added { AddsEnds (λ i m. MatchesPast (expression_of asked.now.automaton.now)
            asked.now.line.now (window.start + i) m)
            (slice_range asked.now.line.now window.start window.end) ends.old ends.new }
        ensures counted { (reused : ℕ) × (reused ≤ window.end - window.start) ×
            (meter.new ≡
            many_built (window.end - window.start - reused) (many_reused reused meter.old)) }
    {
        let mut built = 0u64;
        let from = self.pass.begin(asked, window.end);
        self.pass
            .go_back(asked, from, window.start, ends, &mut built);
        meter.add_built(built);
        let count = (window.end - window.start) as u64;
        meter.add_reused_steps(count - built);
    }

    /// The first matched stretch that is not empty and begins in the window, the longest of those
    /// that begin there. It is one pass back over the window, and each byte is one step, built or
    /// reused.
    pub fn find(&mut self, asked: &Asked, window: Window, meter: &mut Meter) -> Option<Span>
        requires made { AreEndsFor (expression_of asked.now.automaton.now) self.old }
        requires low { window.start ≤ window.end }
        requires border { IsBorder (expression_of asked.now.automaton.now) asked.now.line.now
            window.end }
        ensures made { AreEndsFor (expression_of asked.now.automaton.now) self.new }
        ensures found { FindsIn (expression_of asked.now.automaton.now) asked.now.line.now
            window.start window.end result }
        ensures counted { (reused : ℕ) × (reused ≤ window.end - window.start) ×
            (meter.new ≡
            many_built (window.end - window.start - reused) (many_reused reused meter.old)) }
    {
        let mut built = 0u64;
        let spot = self.pass.begin(asked, window.end);
        let first = Span { start: 0, end: 0 };
        let mut seen = Seen { spot, first };
        'pieces: while seen.spot.place > window.start {
            seen = self.look_back(asked, seen, window.start, &mut built);
        }
        meter.add_built(built);
        meter.add_reused_steps((window.end - window.start) as u64 - built);
        if seen.first.end == 0 {
            return None;
        }
        Some(seen.first)
    }

    // Goes back over some places more, but not before `start`.
    fn look_back(&mut self, asked: &Asked, seen: Seen, start: usize, built: &mut u64) -> Seen
        requires at { IsAt asked.now self.old.pass seen.spot }
        requires room { length self.old.room.items ≡ piece }
        requires some { start < seen.spot.place }
        ensures at { IsAt asked.now self.new.pass result.spot }
        ensures room { length self.new.room.items ≡ piece }
        ensures on { result.spot.place < seen.spot.place }
        ensures start { start ≤ result.spot.place }
        ensures found { (end : ℕ) → seen.spot.place ≤ end →
            IsFirstFrom (expression_of asked.now.automaton.now) asked.now.line.now seen.spot.place
            end seen.first →
            IsFirstFrom (expression_of asked.now.automaton.now) asked.now.line.now
            result.spot.place end result.first }
        ensures counted { built.new + result.spot.place ≤ built.old + seen.spot.place }
    {
        let place = seen.spot.place;
        let stop = start.max(place.saturating_sub(PIECE));
        self.room.fill(0);
        let spot = self
            .pass
            .go_back(asked, seen.spot, stop, &mut self.room, built);
        let first = first_of(&self.room, stop, place - stop, seen.first);
        Seen { spot, first }
    }
}

// The stretch of the first place that has an end, of so many places from `from` on, or `other`
// where none has.
fn first_of(ends: &[usize], from: usize, count: usize, other: Span) -> Span
    requires room { count ≤ length ends.now }
    requires few { from + count < 2 ^ 64 }
    ensures { ((result ≡ other) × ((k : ℕ) → k < count → slice_index ends.now k ≡ 0))
        ⊎ ((k : ℕ) × (k < count) × (0 < slice_index ends.now k) ×
        (result ≡ record { start = from + k; end = slice_index ends.now k }) ×
        ((i : ℕ) → i < k → slice_index ends.now i ≡ 0)) }
{
    'places: for k in 0..count {
        if ends[k] > 0 {
            return Span {
                start: from + k,
                end: ends[k],
            };
        }
    }
    other
}
