//! The stretch of a line in which the next match is, by the bytes that matches have.
ghost use Rattle.std.specs.Prelude.{◌≡◌, ◌+◌, ◌-◌, ◌<◌, ◌≤◌, IfSome, IfNone, length, slice_index};
ghost use Rattle.re_trees.specs.{Expression.Expression, Working.Trees.expression_of};
ghost use Rattle.{re_meter.specs.Meters.AddsUpTo, re_auto.specs.Working.Beginnings.IsMarked};
ghost use Rattle.re_ends.specs.Working.GreatestEnds.{IsBorder};
ghost use Rattle.re_match.specs.Working.Aheads.{AreEdgesFor, IsSaid, past};

use crate::ahead::Ahead;
use re_auto::{Automaton, Beginnings, Meter};
use re_ends::Window;

// Nearer places are not looked at again for where a match begins.
const NEAR: usize = 8;

/// The bytes of matches, at which no stretch ends in which a match is.
#[derive(Drop)]
pub struct Edges {
    /// Bytes, among which are all of each match.
    pub bytes: Beginnings,
    // Whether a match can have each byte but NUL, so that a look for another byte isn't worth while.
    has_most: bool,
}

impl Edges {
    /// The bytes that positions of the automaton take.
    pub fn of(automaton: &Automaton) -> Edges
        ensures { AreEdgesFor (expression_of automaton.now) result }
    {
        let bytes = automaton.bytes();
        let has_most = has_most(&bytes);
        Edges { bytes, has_most }
    }

    /// Where the next match of the line is: in the next stretch of bytes that matches can have.
    pub fn next(&self, line: &[u8], from: usize, meter: &mut Meter) -> Ahead
        requires within { from < length line.now }
        ensures { (e : Expression) → AreEdgesFor e self.now →
            IsSaid e line.now from meter.old meter.new result }
    {
        let start = self.bytes.next_in(line, from);
        if start == line.len() {
            meter.add_passed(start - from);
            return Ahead::Nothing;
        }
        meter.add_passed(start + 1 - from);
        let end = self.end(line, start, meter);
        Ahead::In(Window { start, end })
    }

    /// From where on a match that has the byte at `near` can begin, where the bytes before it were
    /// passed from `from` on. A look at them again counts as steps, as many as it saves at most; `None`
    /// if that isn't enough.
    pub fn start(&self, line: &[u8], from: usize, near: usize, meter: &mut Meter) -> Option<usize>
        requires low { from ≤ near }
        requires within { near < length line.now }
        ensures low { IfSome result (λ start. from ≤ start) }
        ensures high { IfSome result (λ start. start ≤ near) }
        ensures outside { IfSome result (λ start. from < start →
            ¬ IsMarked self.now.bytes (slice_index line.now (start - 1))) }
        ensures steps { IfSome result (λ start. AddsUpTo (start - from) 0 meter.old meter.new) }
        ensures none { IfNone result (AddsUpTo 0 (length line.now - near - 1) meter.old meter.new) }
    {
        let passed = near - from;
        if passed < NEAR || self.has_most {
            return Some(from);
        }
        let most = (passed / 2).min(line.len() - near - 1);
        let Some(start) = run_start(&self.bytes, line, near, most) else {
            meter.add_passed(most);
            return None;
        };
        meter.add_built((near - start + 1) as u64);
        Some(start)
    }

    /// The first place from `near` on at which no match goes on. The byte at `near` was passed.
    pub fn end(&self, line: &[u8], near: usize, meter: &mut Meter) -> usize
        requires within { near < length line.now }
        ensures low { near ≤ result }
        ensures border { (e : Expression) → AreEdgesFor e self.now → IsBorder e line.now result }
        ensures passed { AddsUpTo 0 (past line.now result - near - 1) meter.old meter.new }
    {
        if self.has_most {
            return line.len();
        }
        let end = run_end(&self.bytes, line, near);
        meter.add_passed(end.min(line.len() - 1) - near);
        end
    }
}

// Whether the set has all bytes but NUL, like those that a period means.
fn has_most(set: &Beginnings) -> bool {
    'bytes: for byte in 1..256usize {
        if !set.has(byte as u8) {
            return false;
        }
    }
    true
}

// Where the bytes of the set begin that come directly before `near`. It looks at `most` bytes at most.
fn run_start(set: &Beginnings, line: &[u8], near: usize, most: usize) -> Option<usize>
    requires near { near ≤ length line.now }
    requires most { most ≤ near }
    ensures low { IfSome result (λ start. near + 1 ≤ start + most) }
    ensures high { IfSome result (λ start. start ≤ near) }
    ensures outside { IfSome result (λ start. ¬ IsMarked set.now (slice_index line.now (start - 1))) }
{
    'bytes: for back in 0..most {
        if !set.has(line[near - back - 1]) {
            return Some(near - back);
        }
    }
    None
}

// The first place from `from` on whose byte isn't in the set, or the line's end.
fn run_end(set: &Beginnings, line: &[u8], from: usize) -> usize
    requires { from ≤ length line.now }
    ensures low { from ≤ result }
    ensures high { result ≤ length line.now }
    ensures outside { result < length line.now → ¬ IsMarked set.now (slice_index line.now result) }
{
    'bytes: for place in from..line.len() {
        if !set.has(line[place]) {
            return place;
        }
    }
    line.len()
}

/// All of the line from this place on.
pub fn rest_of(line: &[u8], from: usize) -> Window
    ensures { result ≡ record { start = from; end = length line.now } }
{
    Window {
        start: from,
        end: line.len(),
    }
}
