//! All parts of one line, from the first to the last. Each byte of the line is one step of each
//! matcher, however many parts there are.
ghost use Rattle.std.specs.Prelude.{false, ◌<◌, ◌+◌, length, ℕ, IfSome, ◌^◌, ◌∷◌, ◌≤◌, ◌*◌, IfOk};
ghost use Rattle.std.specs.Prelude.{replicate, ◌-◌, [], ◌≡◌, vec_capacity};
ghost use Rattle.{re_syntax.specs.Bytes.Text, re_auto.specs.Searches.{FindsPart, AddsAtMost}};
ghost use Rattle.{re_auto.specs.Meters.Steps, re_meter.specs.Meters.AddsJust};
ghost use Rattle.re_match.specs.Working.Aheads.{past, IsWindowOf};
ghost use Rattle.re_search.specs.Working.Matchers.{AreAlike, IsSame, AreSame, expressions_of};
ghost use Rattle.re_search.specs.Working.{Matchers.matched_expression, Sought.{Sought, sought_of}};
ghost use Rattle.re_search.specs.Working.LineParts.{AreAllEnds, ArePartsOf, FindsBefore, spent};
ghost use Rattle.re_search.specs.Working.LineParts.{AreEnds, AreEndsIn};

use crate::matcher::Matcher;
use crate::several::line_part;
use re_auto::Meter;
use re_match::{Ahead, LineMatch, Window, rest_of};
use re_syntax::Span;
use std::alloc::{AllocError, Global};
use std::marker::Model;

/// The search for the parts of one line: room for an end of each place, how far the line was looked
/// at, and the ends of the window that was looked at last.
#[derive(Drop)]
pub struct LineParts {
    // The greatest end of the parts that begin at each place of the window, or 0.
    ends: Vec<usize>,
    // Room for what matchers work with.
    spare: Vec<usize>,
    room: usize,
    // Where the window begins.
    first: usize,
    seen: usize,
}

impl Model for LineParts {
    ghost use Rattle.std.specs.Prelude.{◌+◌, ◌^◌, ◌<◌, ◌≤◌, length, vec_capacity};
    ghost use Rattle.re_search.specs.Working.LineParts.{LineEnds};

    ghost Value = { LineEnds };

    ghost view = { λ p.
        record { room = p.room; seen = p.seen; first = p.first; ends = p.ends.items } };

    ghost invariant = { λ p. (p.room ≤ vec_capacity p.ends) × (p.room ≤ vec_capacity p.spare)
        × (p.first + length p.ends.items ≤ p.seen) × (p.seen < 2 ^ 64) };
}

impl LineParts {
    /// No room.
    pub fn new(alloc: Global) -> LineParts
        ensures { result ≡ record { room = 0; seen = 0; first = 0; ends = [] } }
    {
        LineParts {
            ends: Vec::new(alloc),
            spare: Vec::new(alloc),
            room: 0,
            first: 0,
            seen: 0,
        }
    }

    /// Makes room for lines of at most `most` bytes, before the first part of a line.
    ///
    /// # Errors
    ///
    /// If out of memory. There is room as before.
    pub fn make_room(&mut self, most: usize) -> Result<(), AllocError>
        ensures ok { IfOk result (λ _. most ≤ self.new.room) }
        ensures more { self.old.room ≤ self.new.room }
    {
        if most <= self.room {
            return Ok(());
        }
        self.pass(0);
        self.ends.try_reserve(most)?;
        self.spare.clear();
        self.spare.try_reserve(most)?;
        self.room = most;
        Ok(())
    }

    /// Before the first part of a line.
    pub fn begin(&mut self)
        ensures room { self.new.room ≡ self.old.room }
        ensures seen { self.new.seen ≡ 0 }
        ensures right { (sought : Sought) (line : Text) (from : ℕ) →
            ArePartsOf sought line from self.new }
    {
        self.pass(0);
    }

    // No part begins from here on up to `seen`.
    fn pass(&mut self, seen: usize)
        ensures { self.new ≡ record { room = self.old.room; seen = seen; first = 0; ends = [] } }
    {
        self.ends.clear();
        self.first = 0;
        self.seen = seen;
    }

    // How many places were looked at.
    fn seen(&self) -> usize
        ensures { result ≡ self.now.seen }
    {
        self.seen
    }

    // The first part from a place on, if it begins where the line was looked at.
    fn known_part(&self, from: usize) -> Option<Span>
        ensures { (sought : Sought) (line : Text) → ArePartsOf sought line from self.now →
            FindsBefore sought line from self.now.seen result }
    {
        part_from(&self.ends, self.first, from)
    }

    // Zeros for the places of a window, which matchers are asked for next.
    fn open(&mut self, line: &[u8], window: Window)
        requires low { window.start ≤ window.end }
        requires high { window.end ≤ length line.now }
        requires room { window.end - window.start ≤ self.old.room }
        ensures { self.new ≡ record {
          room = self.old.room;
          seen = past line.now window.end;
          first = window.start;
          ends = replicate (window.end - window.start) 0;
        } }
    {
        fill(&mut self.ends, window.end - window.start);
        self.first = window.start;
        self.seen = (window.end + 1).min(line.len());
    }

    // Looks at a window of the line.
    fn look_at(&mut self, matcher: &mut Matcher, line: &[u8], window: Window, meter: &mut Meter)
        requires window { IsWindowOf (matched_expression matcher.old) line.now window }
        requires high { window.end ≤ length line.now }
        requires room { length line.now ≤ self.old.room }
        ensures right { AreEndsIn
            (record { expressions = matched_expression matcher.old ∷ []; whole = false }) line.now
            window.start window.end self.new }
        ensures seen { self.new.seen ≡ past line.now window.end }
        ensures room { self.new.room ≡ self.old.room }
        ensures same { IsSame matcher.old matcher.new }
        ensures steps { AddsJust (window.end - window.start) 0 meter.old meter.new }
    {
        self.open(line, window);
        matcher.add_ends(line, window, &mut self.ends, &mut self.spare, meter);
    }

    // Looks at the whole line.
    fn look_over(&mut self, matchers: &mut [Matcher], line: &[u8], meter: &mut Meter)
        requires room { length line.now ≤ self.old.room }
        ensures right { (from : ℕ) → ArePartsOf (sought_of false matchers.old)
            line.now from self.new }
        ensures seen { self.new.seen ≡ length line.now }
        ensures room { self.new.room ≡ self.old.room }
        ensures same_matchers { AreSame matchers.old matchers.new }
        ensures steps { AddsAtMost (length matchers.old * (length line.now + 1)) meter.old meter.new }
    {
        self.open(line, rest_of(line, 0));
        put_ends(matchers, line, &mut self.ends, &mut self.spare, meter);
    }
}

/// The next part of the line: the leftmost-longest of the stretches that are not empty, begin at
/// `from` or later and are matched by some matcher (XBD 9.1). `whole` is what all matchers answer
/// to whether the whole line has to be matched, and `parts` is what the parts before were searched
/// with. All parts of a line take at most one step for each matcher and byte, and one more for each
/// matcher, and pass at most as many bytes, however many they are. Nothing is allocated.
pub fn next_part(
    matchers: &mut [Matcher],
    whole: bool,
    line: &[u8],
    from: usize,
    parts: &mut LineParts,
    meter: &mut Meter,
) -> Option<Span>
    requires within { from ≤ length line.now }
    requires alike { AreAlike whole matchers.old }
    requires room { length line.now ≤ parts.old.room }
    requires right { ArePartsOf (sought_of whole matchers.old) line.now from parts.old }
    ensures reported { FindsPart (expressions_of matchers.old) line.now whole from result }
    ensures same_matchers { AreSame matchers.old matchers.new }
    ensures right { IfSome result
        (λ part. ArePartsOf (sought_of whole matchers.old) line.now part.end parts.new) }
    ensures room { parts.new.room ≡ parts.old.room }
    ensures seen { parts.new.seen ≤ length line.now }
    ensures steps { (first : Steps) →
        AddsAtMost (length matchers.old * spent parts.old.seen) first meter.old
        → AddsAtMost (length matchers.old * spent parts.new.seen) first meter.new }
{
    if whole {
        if parts.seen() > 0 {
            return parts.known_part(from);
        }
        if from == line.len() {
            return None;
        }
        parts.pass(line.len());
        return line_part(matchers, line, from, meter);
    }
    if matchers.len() == 1 {
        return next_of_one(&mut matchers[0], line, from, parts, meter);
    }
    if parts.seen() == line.len() {
        return parts.known_part(from);
    }
    parts.look_over(matchers, line, meter);
    parts.known_part(from)
}

// The next part of the line, by one matcher, which looks at the line window by window.
fn next_of_one(
    matcher: &mut Matcher,
    line: &[u8],
    from: usize,
    parts: &mut LineParts,
    meter: &mut Meter,
) -> Option<Span>
    requires within { from ≤ length line.now }
    requires room { length line.now ≤ parts.old.room }
    requires right { ArePartsOf
        (record { expressions = matched_expression matcher.old ∷ []; whole = false }) line.now from
        parts.old }
    ensures reported { FindsPart (matched_expression matcher.old ∷ []) line.now false from result }
    ensures same { IsSame matcher.old matcher.new }
    ensures right { IfSome result (λ part. ArePartsOf
        (record { expressions = matched_expression matcher.old ∷ []; whole = false }) line.now
        part.end parts.new) }
    ensures room { parts.new.room ≡ parts.old.room }
    ensures seen { parts.new.seen ≤ length line.now }
    ensures steps { (first : Steps) → AddsAtMost (spent parts.old.seen) first meter.old
        → AddsAtMost (spent parts.new.seen) first meter.new }
{
    let mut at = from;
    'stretches: loop {
        if let Some(part) = parts.known_part(at) {
            return Some(part);
        }
        at = at.max(parts.seen());
        if at == line.len() {
            return None;
        }
        match matcher.next_window(line, at, meter) {
            Ahead::Part(part) => {
                parts.pass(part.end);
                return Some(part);
            }
            Ahead::In(window) => parts.look_at(matcher, line, window, meter),
            Ahead::Nothing => {
                parts.pass(line.len());
                return None;
            }
        }
    }
}

// The first part from `from` on, by the greatest ends of the parts that begin at each place of the
// window that begins at `first`.
#[inline(never)]
fn part_from(ends: &[usize], first: usize, from: usize) -> Option<Span>
    requires { first + length ends.now < 2 ^ 64 }
    ensures { (sought : Sought) (line : Text) (seen : ℕ) → first + length ends.now ≤ seen →
        AreEnds sought line from seen first ends.now → FindsBefore sought line from seen result }
{
    let mut place = from.saturating_sub(first);
    'places: while place < ends.len() {
        if ends[place] > 0 {
            return Some(Span {
                start: first + place,
                end: ends[place],
            });
        }
        place += 1;
    }
    None
}

// So many zeros, for which there is room.
fn fill(list: &mut Vec<usize>, count: usize)
    requires { count ≤ vec_capacity list.old }
    ensures zeros { list.new.items ≡ replicate count 0 }
    ensures capacity { vec_capacity list.old ≤ vec_capacity list.new }
{
    list.clear();
    let _ = list.resize(count, 0);
}

// Gives each place of the line the greatest end of the parts that begin there.
fn put_ends(
    matchers: &mut [Matcher],
    line: &[u8],
    ends: &mut [usize],
    spare: &mut Vec<usize>,
    meter: &mut Meter,
)
    requires zeros { ends.old ≡ replicate (length line.now) 0 }
    requires spare { length line.now ≤ vec_capacity spare.old }
    ensures right { AreAllEnds (sought_of false matchers.old) line.now ends.new }
    ensures same_matchers { AreSame matchers.old matchers.new }
    ensures room { length ends.new ≡ length ends.old }
    ensures spare { vec_capacity spare.old ≤ vec_capacity spare.new }
    ensures steps { AddsAtMost (length matchers.old * (length line.now + 1)) meter.old meter.new }
{
    for matcher in matchers.iter_mut() {
        matcher.add_ends(line, rest_of(line, 0), ends, spare, meter);
    }
}
