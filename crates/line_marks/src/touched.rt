//! The stretches that a splice touches.
ghost use Rattle.std.specs.Prelude.{◌≡◌, ◌+◌, ◌-◌, ◌^◌, ◌<◌, ◌≤◌, length, take, drop};
ghost use Rattle.line_marks.specs.Working.Places.{AreCounted, HasLead, IsReached, Passes, led};
ghost use Rattle.line_marks.specs.Working.Takes.{Takes};

use crate::stretch::Stretch;

/// Stretches that became one.
#[derive(Clone, Copy, Drop)]
pub struct Touched {
    /// What they became.
    pub one: Stretch,
    /// How many they are.
    pub many: usize,
    /// How many of the untouched lines after them belong to it.
    pub lead: usize,
}

/// A place among stretches.
#[derive(Clone, Copy, Drop)]
pub struct Place {
    /// How many stretches end before it.
    pub many: usize,
    /// How many lines after the last of these it is.
    pub rest: usize,
}

/// Where line `line` is among stretches.
pub fn place_of(stretches: &[Stretch], line: usize) -> Place
    ensures within { result.many ≤ length stretches.now }
    ensures passes { Passes (take result.many stretches.now) line result.rest }
    ensures reached { IsReached result.rest (drop result.many stretches.now) }
{
    let mut rest = line;
    for many in 0..stretches.len() {
        let later = need(stretches[many], rest);
        if later == 0 {
            return Place { many, rest };
        }
        rest = later;
    }
    Place {
        many: stretches.len(),
        rest,
    }
}

/// A stretch of no lines.
fn idle(start: usize) -> Touched
    ensures one { result.one ≡ record { kept = start; removed = 0; added = 0 } }
    ensures many { result.many ≡ 0 }
    ensures lead { result.lead ≡ start }
{
    Touched {
        one: Stretch {
            kept: start,
            removed: 0,
            added: 0,
        },
        many: 0,
        lead: start,
    }
}

/// The stretch in which line `start` is or with which it begins, or else one of no lines there.
fn begun(stretches: &[Stretch], start: usize) -> Touched
    requires { IsReached start stretches.now }
    ensures { Takes start start start stretches.now result }
{
    let Some(first) = stretches.first() else {
        return idle(start);
    };
    if start < first.kept {
        return idle(start);
    }
    Touched {
        one: *first,
        many: 1,
        lead: 0,
    }
}

/// How many lines after the stretch come before line `end`.
fn need(one: Stretch, end: usize) -> usize
    ensures { result ≡ end - (one.kept + one.added) }
{
    end.saturating_sub(one.kept).saturating_sub(one.added)
}

/// The stretch with the lines after it, up to line `end`.
fn widened(all: Touched, end: usize) -> Touched
    requires few_removed { all.one.removed + (end - (all.one.kept + all.one.added)) < 2 ^ 64 }
    requires few_added { all.one.added + (end - (all.one.kept + all.one.added)) < 2 ^ 64 }
    requires few_lead { all.lead + (end - (all.one.kept + all.one.added)) < 2 ^ 64 }
    ensures one { result.one ≡
        record {
          kept = all.one.kept;
          removed = all.one.removed + (end - (all.one.kept + all.one.added));
          added = all.one.added + (end - (all.one.kept + all.one.added));
        } }
    ensures many { result.many ≡ all.many }
    ensures lead { result.lead ≡ all.lead + (end - (all.one.kept + all.one.added)) }
{
    let more = need(all.one, end);
    Touched {
        one: Stretch {
            kept: all.one.kept,
            removed: all.one.removed + more,
            added: all.one.added + more,
        },
        many: all.many,
        lead: all.lead + more,
    }
}

/// The stretch and the one after it as one, with the lines between them.
pub fn joined(one: Stretch, next: Stretch) -> Stretch
    requires few_removed { one.removed + (next.kept + next.removed) < 2 ^ 64 }
    requires few_added { one.added + (next.kept + next.added) < 2 ^ 64 }
    ensures { result ≡
        record {
          kept = one.kept;
          removed = one.removed + (next.kept + next.removed);
          added = one.added + (next.kept + next.added);
        } }
{
    Stretch {
        kept: one.kept,
        removed: one.removed + (next.kept + next.removed),
        added: one.added + (next.kept + next.added),
    }
}

/// The stretch after `lead` of the lines before it.
pub fn led_by(stretch: Stretch, lead: usize) -> Stretch
    requires { lead ≤ stretch.kept }
    ensures { result ≡
        record {
          kept = stretch.kept - lead;
          removed = stretch.removed;
          added = stretch.added;
        } }
{
    Stretch {
        kept: stretch.kept - lead,
        removed: stretch.removed,
        added: stretch.added,
    }
}

/// The stretch in which line `start` is, or which begins there, with all stretches that the lines
/// from `start` up to `end` touch.
fn taken(stretches: &[Stretch], start: usize, end: usize) -> Touched
    requires reached { IsReached start stretches.now }
    requires in_order { start ≤ end }
    requires counted { AreCounted end stretches.now }
    ensures takes { Takes start end start stretches.now result }
    ensures near { HasLead (end - (result.one.kept + result.one.added))
        (led result.lead (drop result.many stretches.now)) }
{
    let mut all = begun(stretches, start);
    for k in all.many..stretches.len() {
        let next = led_by(stretches[k], all.lead);
        let more = need(all.one, end);
        if more < next.kept {
            return all;
        }
        let one = joined(all.one, next);
        all = Touched {
            one,
            many: k + 1,
            lead: 0,
        };
    }
    all
}

/// The stretch that has the lines from `start` up to `end`, with all stretches that these touch.
fn all_touched(stretches: &[Stretch], start: usize, end: usize) -> Touched
    requires reached { IsReached start stretches.now }
    requires in_order { start ≤ end }
    requires counted { AreCounted end stretches.now }
    ensures { Takes start end end stretches.now result }
{
    let all = taken(stretches, start, end);
    widened(all, end)
}

/// The stretches after the first ones.
fn rest_of(stretches: &[Stretch], many: usize) -> &[Stretch]
    requires { many ≤ length stretches.now }
    ensures { result.now ≡ drop many stretches.now }
{
    &stretches[many..]
}

/// The stretch that has the `count` lines from this place on, with all stretches that these touch.
pub fn touched_at(stretches: &[Stretch], place: Place, count: usize) -> Touched
    requires within { place.many ≤ length stretches.now }
    requires reached { IsReached place.rest (drop place.many stretches.now) }
    requires counted { AreCounted (place.rest + count) (drop place.many stretches.now) }
    ensures { Takes place.rest (place.rest + count) (place.rest + count)
        (drop place.many stretches.now) result }
{
    let rest = rest_of(stretches, place.many);
    all_touched(rest, place.rest, place.rest + count)
}
