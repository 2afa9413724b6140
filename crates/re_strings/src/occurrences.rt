//! All places of a line where one text stands, also where two of them overlap.
ghost use Rattle.std.specs.Prelude.{◌≡◌, ℕ, ◌+◌, ◌-◌, ◌^◌, ◌<◌, ◌≤◌, ◌⊎◌, length, slice_index};
ghost use Rattle.std.specs.Prelude.{MatchOption, vec_capacity};
ghost use Rattle.{re_trees.specs.Working.PutEnds.AddsEnds, memchr.specs.Find.OccursAt};
ghost use Rattle.re_strings.specs.Working.Overlaps.{AgreesUpTo, CommonLength};

use crate::ends::put_end;

// The bytes from `left` on and before `right` are those with which the text begins.
#[derive(Drop, Clone, Copy)]
struct ZBox {
    left: usize,
    right: usize,
}

/// Gives each place of the stretch of a line where the text stands the text's end there, if `ends`
/// has no greater one. The stretch begins at `start`. It compares each byte a few times at most,
/// whatever the text. What is in `spare` doesn't matter, and gets lost.
pub fn add_occurrences(
    text: &[u8],
    line: &[u8],
    start: usize,
    ends: &mut [usize],
    spare: &mut Vec<usize>,
)
    requires some { 1 ≤ length text.now }
    requires ends { length ends.old ≡ length line.now }
    requires spare { length line.now ≤ vec_capacity spare.old }
    requires small { start + length line.now < 2 ^ 64 }
    ensures added { AddsEnds (λ i m. (m < start + (i + length text.now)) × OccursAt line.now text.now i)
        line.now ends.old ends.new }
    ensures spare { vec_capacity spare.old ≤ vec_capacity spare.new }
{
    if text.len() > line.len() {
        return;
    }
    spare.clear();
    let _ = spare.resize(text.len(), 0);
    find_own_lengths(text, spare);
    let mut window = ZBox { left: 0, right: 0 };
    'places: for place in 0..line.len() {
        let length = common_length(text, line, spare, place, &mut window);
        put_whole(ends, place, length, text.len(), start);
    }
}

// Puts the end of a common beginning if that is the whole text.
fn put_whole(ends: &mut [usize], place: usize, length: usize, whole: usize, start: usize)
    requires { start + (place + length) < 2 ^ 64 }
    ensures { AddsEnds (λ i m. (i ≡ place) × (length ≡ whole) × (m < start + (place + length))) ends.old
        ends.old ends.new }
{
    if length == whole {
        put_end(ends, place, start + (place + length));
    }
}

// For each place of the text after its first, how far the text from there on begins as the text.
fn find_own_lengths(text: &[u8], lengths: &mut [usize])
    requires { length text.now ≤ length lengths.old }
    ensures size { length lengths.new ≡ length lengths.old }
    ensures right { (j : ℕ) → 0 < j → j < length text.now →
        CommonLength text.now text.now j (slice_index lengths.new j) }
{
    let mut window = ZBox { left: 0, right: 0 };
    'places: for place in 1..text.len() {
        let length = common_length(text, text, lengths, place, &mut window);
        lengths[place] = length;
    }
}

// How far the line from `place` on begins as the text. The window is one that was found before;
// `lengths` says how far the text begins as itself from the place in it.
fn common_length(
    text: &[u8],
    line: &[u8],
    lengths: &[usize],
    place: usize,
    window: &mut ZBox,
) -> usize
    requires within { place ≤ length line.now }
    requires window { AgreesUpTo text.now line.now window.old.left window.old.right }
    requires known { place < window.old.right →
        (window.old.left < place) × (place - window.old.left < length lengths.now) ×
        CommonLength text.now text.now (place - window.old.left)
        (slice_index lengths.now (place - window.old.left)) }
    ensures right { CommonLength text.now line.now place result }
    ensures window { AgreesUpTo text.now line.now window.new.left window.new.right }
    ensures begun { place + 1 < window.new.right →
        (window.new.left ≡ place) ⊎
        ((window.new.left ≡ window.old.left) × (window.new.right ≡ window.old.right)) }
{
    if let Some(length) = known_length(lengths, *window, place) {
        return length;
    }
    let end = agreement(text, line, place, place.max(window.right));
    window.left = place;
    window.right = end;
    end - place
}

// The length that is known where it ends within the window.
fn known_length(lengths: &[usize], window: ZBox, place: usize) -> Option<usize>
    requires { place < window.right →
        (window.left < place) × (place - window.left < length lengths.now) }
    ensures { MatchOption result
        (place < window.right →
        window.right ≤ place + slice_index lengths.now (place - window.left))
        (λ n. (place < window.right) × (place + n < window.right) ×
        (n ≡ slice_index lengths.now (place - window.left))) }
{
    if place >= window.right {
        return None;
    }
    let length = lengths[place - window.left];
    if length >= window.right - place {
        return None;
    }
    Some(length)
}

// Up to where the line from `place` on begins as the text. Up to `known` it does.
fn agreement(text: &[u8], line: &[u8], place: usize, known: usize) -> usize
    requires { AgreesUpTo text.now line.now place known }
    ensures low { place ≤ result }
    ensures right { CommonLength text.now line.now place (result - place) }
{
    let mut end = known;
    'bytes: while end < line.len() && end - place < text.len() {
        if text[end - place] != line[end] {
            return end;
        }
        end += 1;
    }
    end
}
