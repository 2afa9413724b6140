//! Search for a string, counted.
ghost use Rattle.std.specs.Prelude.{◌≡◌, ◌≤◌, ◌+◌, IfSome, length};
ghost use Rattle.memchr.specs.Find.{FindsNeedle, IsFirst, OccursAt};
ghost use Rattle.re_meter.specs.Meters.{many_passed};
ghost use Rattle.re_runs.specs.Working.Runs.{look_cost};

use crate::lanes::{lowest, marks_of, without};
use crate::run_finder::begins_with;
use memchr::memmem::Finder;
use re_meter::Meter;

// How many places are tried at once, and the most bytes of a string for which they are.
const LANES: usize = 32;

// How many places are tried before `memmem` is called.
const NEAR: usize = 128;

/// The first place of the line where the string is. The bytes up to there are passed; all if it is
/// nowhere.
#[inline(always)]
pub fn find_text(finder: &Finder<'_>, line: &[u8], meter: &mut Meter) -> Option<usize>
    ensures found { FindsNeedle line.now finder.now 0 result }
    ensures counted { meter.new ≡ many_passed (look_cost line.now result) meter.old }
{
    let found = first_place(finder, line);
    meter.add_passed(bytes_over(line, found));
    found
}

/// How many bytes a look passed that found this place, or nothing.
#[inline(always)]
pub fn bytes_over(line: &[u8], found: Option<usize>) -> usize
    requires { IfSome found (λ place. place ≤ length line.now) }
    ensures { result ≡ look_cost line.now found }
{
    match found {
        Some(place) => line.len().min(place.saturating_add(1)),
        None => line.len(),
    }
}

// The first place of the line where the string is. The first 128 places are tried first: where most lines
// have the string, that is quicker than a call of `memmem`.
#[inline(always)]
fn first_place(finder: &Finder<'_>, line: &[u8]) -> Option<usize>
    ensures { FindsNeedle line.now finder.now 0 result }
{
    let text = finder.needle();
    if text.is_empty() || text.len() > LANES {
        return finder.find(line);
    }
    let mut start = 0;
    'vectors: while start < NEAR && LANES + text.len() <= line.len() - start {
        if let Some(place) = near_place(text, line, start) {
            return Some(place);
        }
        start += LANES;
    }
    let Some(place) = finder.find(&line[start..]) else {
        return None;
    };
    Some(start + place)
}

// The first of 32 places where the text is: those with its first and last byte are tried.
#[inline(always)]
fn near_place(text: &[u8], line: &[u8], start: usize) -> Option<usize>
    requires some { 1 ≤ length text.now }
    requires room { start + 32 + length text.now ≤ length line.now }
    ensures { IsFirst (OccursAt line.now text.now) start (start + 32) result }
{
    let last = text.len() - 1;
    let mut left = marks_of(text[0], line, start) & marks_of(text[last], line, start + last);
    'marks: while left != 0 {
        let place = start + lowest(left);
        if begins_with(&line[place..], text) {
            return Some(place);
        }
        left = without(left, place - start);
    }
    None
}
