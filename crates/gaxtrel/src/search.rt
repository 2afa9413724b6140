//! The calls that search a line or a text.
ghost use Rattle.std.specs.Prelude.{◌≡◌, ◌<◌, ◌↔◌, ◌⊎◌, ℕ, true, false, None, Option, length, take};
ghost use Rattle.{re_syntax.specs.Lines.lines_of, re_trees.specs.declared.span.Span.Span};
ghost use Rattle.{re_meter.specs.Meters.fresh, re_auto.specs.Searches.FindsPart};
ghost use Rattle.re_search.specs.Working.Sought.{CountsSought, IsSought};
ghost use Rattle.gaxtrel.specs.Calls.{Asks, AsksLine, FindsLine, IsOneSearch, PutsLines};
ghost use Rattle.gaxtrel.specs.Calls.{PutsNumbers, PutsParts, Reaches, Says, SaysOf, Tells};
ghost use Rattle.gaxtrel.specs.Calls.{TellsOf, patterns_in, steps_of};

use crate::held::Held;
use crate::holder::GaxtrelHolder;
use crate::numbers::{MISUSED, STOPPED, answer_for, some};
use crate::part::{GaxtrelPart, part_of, put_found};
use crate::text_lines::GaxtrelLine;
use re_auto::fresh_meter;
use std::alloc::Global;

/// Whether the line is matched: 1 if so, 0 if not; 3 if `matcher` holds no patterns, 5 if it is
/// stopped.
#[unsafe(no_mangle)]
pub extern "C" fn gaxtrel_is_match(alloc: Global, matcher: &mut GaxtrelHolder, line: &[u8]) -> u32
    ensures { AsksLine matcher.old.handle.held matcher.new.handle.held matcher.new.work result
        line.now (λ _ sought. (result < 2) × ((result ≡ 1) ↔ IsSought sought line.now)) }
{
    let Some(mut boxed) = matcher.take(alloc) else {
        return MISUSED;
    };
    let Held::Patterns(patterns) = &mut *boxed else {
        return matcher.put_back(boxed, MISUSED);
    };
    if !patterns.allows(line.len()) {
        return matcher.put_back(boxed, STOPPED);
    }
    let mut meter = fresh_meter();
    let matched = patterns.is_match(line, &mut meter);
    *matcher = GaxtrelHolder::of(boxed, &meter);
    matched as u32
}

/// The part of the line that begins earliest at `from` or later, and of those that begin there the
/// longest: 1 if there is one, 0 if not; 3 if `matcher` holds no patterns, 5 if it is stopped.
#[unsafe(no_mangle)]
pub extern "C" fn gaxtrel_find(
    alloc: Global,
    matcher: &mut GaxtrelHolder,
    line: &[u8],
    from: usize,
    part: &mut GaxtrelPart,
) -> u32
    ensures found { AsksLine matcher.old.handle.held matcher.new.handle.held matcher.new.work result
        line.now (λ _ sought. (found : Option Span)
        × FindsPart sought.expressions line.now sought.whole from found
        × Tells result part.new found) }
    ensures no_part { (result ≡ 1 → ⊥) → part.new ≡ part.old }
{
    let Some(mut boxed) = matcher.take(alloc) else {
        return MISUSED;
    };
    let Held::Patterns(patterns) = &mut *boxed else {
        return matcher.put_back(boxed, MISUSED);
    };
    if !patterns.allows(line.len()) {
        return matcher.put_back(boxed, STOPPED);
    }
    let mut meter = fresh_meter();
    let found = patterns.find(line, from, &mut meter);
    *matcher = GaxtrelHolder::of(boxed, &meter);
    put_found(found, part)
}

/// All parts of the line from a place on: how many there are goes to `count`, and the first ones
/// over `parts`, as many as it has room for. Answers 1 if there is one, 0 if not; 2 if memory is
/// refused, 3 if `matcher` holds no patterns, and 5 if it is stopped: then nothing is written.
#[unsafe(no_mangle)]
pub extern "C" fn gaxtrel_parts(
    alloc: Global,
    matcher: &mut GaxtrelHolder,
    line: &[u8],
    from: usize,
    parts: &mut [GaxtrelPart],
    count: &mut usize,
) -> u32
    ensures found { AsksLine matcher.old.handle.held matcher.new.handle.held matcher.new.work result
        line.now (λ _ sought. ((result ≡ 2) × (steps_of matcher.new.work ≡ fresh))
        ⊎ (Says result count.new
        × PutsParts sought line.now from parts.old parts.new count.new)) }
    ensures unwritten { 1 < result → (parts.new ≡ parts.old) × (count.new ≡ count.old) }
{
    let Some(mut boxed) = matcher.take(alloc) else {
        return MISUSED;
    };
    let Held::Patterns(patterns) = &mut *boxed else {
        return matcher.put_back(boxed, MISUSED);
    };
    if !patterns.allows(line.len()) {
        return matcher.put_back(boxed, STOPPED);
    }
    let mut meter = fresh_meter();
    let found = patterns.parts(alloc, line, from, parts, &mut meter);
    *matcher = GaxtrelHolder::of(boxed, &meter);
    let Ok(found) = found else {
        return 2;
    };
    *count = found;
    some(found as u64)
}

/// Which patterns match the line: how many there are goes to `count`, and the numbers of the first
/// ones over `numbers`, as many as it has room for. Answers 1 if there is one, 0 if not; 3 if
/// `matcher` holds no patterns, 4 if it doesn't keep them apart, and 5 if it is stopped: then
/// nothing is written.
#[unsafe(no_mangle)]
pub extern "C" fn gaxtrel_which(
    alloc: Global,
    matcher: &mut GaxtrelHolder,
    line: &[u8],
    numbers: &mut [usize],
    count: &mut usize,
) -> u32
    ensures found { AsksLine matcher.old.handle.held matcher.new.handle.held matcher.new.work result
        line.now (λ t sought. ((t.apart ≡ false) × (result ≡ 4)
        × (steps_of matcher.new.work ≡ fresh)) ⊎ ((t.apart ≡ true) × Says result count.new
        × PutsNumbers sought line.now numbers.old numbers.new count.new)) }
    ensures unwritten { 1 < result → (numbers.new ≡ numbers.old) × (count.new ≡ count.old) }
{
    let Some(mut boxed) = matcher.take(alloc) else {
        return MISUSED;
    };
    let Held::Patterns(patterns) = &mut *boxed else {
        return matcher.put_back(boxed, MISUSED);
    };
    if !patterns.allows(line.len()) {
        return matcher.put_back(boxed, STOPPED);
    }
    let mut meter = fresh_meter();
    let found = patterns.which(line, numbers, &mut meter);
    *matcher = GaxtrelHolder::of(boxed, &meter);
    let Some(found) = found else {
        return 4;
    };
    *count = found;
    some(found as u64)
}

/// The first matched line of what is left of a text from `from` on, by its place in the text
/// without its newline: 1 if there is one, 0 if not; 3 if `matcher` holds no patterns, 5 if it is
/// stopped before it finds one.
#[unsafe(no_mangle)]
pub extern "C" fn gaxtrel_next_line(
    alloc: Global,
    matcher: &mut GaxtrelHolder,
    text: &[u8],
    from: usize,
    line: &mut GaxtrelPart,
) -> u32
    ensures found { Asks matcher.old.handle.held matcher.new.handle.held matcher.new.work result
        (λ t sought. (end : ℕ) × (place : Option Span) × Reaches t text.now from end
        × FindsLine sought (take end text.now) from place fresh (steps_of matcher.new.work)
        × TellsOf result line.new place end (length text.now)) }
    ensures no_line { (result ≡ 1 → ⊥) → line.new ≡ line.old }
{
    let Some(mut boxed) = matcher.take(alloc) else {
        return MISUSED;
    };
    let Held::Patterns(patterns) = &mut *boxed else {
        return matcher.put_back(boxed, MISUSED);
    };
    let end = patterns.reach(text, from);
    let mut meter = fresh_meter();
    let found = patterns.next_line(&text[..end], from, &mut meter);
    *matcher = GaxtrelHolder::of(boxed, &meter);
    let Some(at) = found else {
        return answer_for(0, end, text);
    };
    *line = part_of(at);
    1
}

/// The matched lines of what is left of a text from `from` on, where the line with this number
/// begins: the first ones go over `lines`, as many as it has room for, and how many these are to
/// `count`. Answers 1 if there is one, 0 if not; 5 if it is stopped before it has all or fills the
/// array; 3 if `matcher` holds no patterns: then nothing is written.
#[unsafe(no_mangle)]
pub extern "C" fn gaxtrel_lines(
    alloc: Global,
    matcher: &mut GaxtrelHolder,
    text: &[u8],
    from: usize,
    number: u64,
    lines: &mut [GaxtrelLine],
    count: &mut usize,
) -> u32
    ensures found { Asks matcher.old.handle.held matcher.new.handle.held matcher.new.work result
        (λ t sought. (end : ℕ) × Reaches t text.now from end
        × PutsLines sought (take end text.now) from number lines.old lines.new count.new fresh
        (steps_of matcher.new.work)
        × (((count.new ≡ length lines.old) × Says result count.new)
        ⊎ ((count.new < length lines.old) × SaysOf result count.new end (length text.now)))) }
    ensures none { patterns_in matcher.old.handle.held ≡ None →
        (lines.new ≡ lines.old) × (count.new ≡ count.old) }
{
    let Some(mut boxed) = matcher.take(alloc) else {
        return MISUSED;
    };
    let Held::Patterns(patterns) = &mut *boxed else {
        return matcher.put_back(boxed, MISUSED);
    };
    let end = patterns.reach(text, from);
    let mut meter = fresh_meter();
    let found = patterns.lines(&text[..end], from, number, lines, &mut meter);
    *matcher = GaxtrelHolder::of(boxed, &meter);
    *count = found;
    if found == lines.len() {
        return some(found as u64);
    }
    answer_for(found as u64, end, text)
}

/// How many lines of a text are matched goes to `count`: 1 if some is, 0 if none is; 3 if
/// `matcher` holds no patterns, 5 if it is stopped before the end of the text.
#[unsafe(no_mangle)]
pub extern "C" fn gaxtrel_count_lines(
    alloc: Global,
    matcher: &mut GaxtrelHolder,
    text: &[u8],
    count: &mut u64,
) -> u32
    ensures counted { Asks matcher.old.handle.held matcher.new.handle.held matcher.new.work result
        (λ t sought. (end : ℕ) × Reaches t text.now 0 end
        × IsOneSearch sought (take end text.now) matcher.new.work
        × CountsSought sought (lines_of (take end text.now)) count.new
        × SaysOf result count.new end (length text.now)) }
    ensures none { patterns_in matcher.old.handle.held ≡ None → count.new ≡ count.old }
{
    let Some(mut boxed) = matcher.take(alloc) else {
        return MISUSED;
    };
    let Held::Patterns(patterns) = &mut *boxed else {
        return matcher.put_back(boxed, MISUSED);
    };
    let end = patterns.reach(text, 0);
    let mut meter = fresh_meter();
    let counted = patterns.count_lines(&text[..end], &mut meter);
    *matcher = GaxtrelHolder::of(boxed, &meter);
    *count = counted;
    answer_for(counted, end, text)
}
