//! The hits of a file: how many there are among some lines, and which comes next.
ghost use Rattle.std.specs.Prelude.{IfSome, ◌≡◌, map, List, MatchOption, ◌<◌, length, ◌≤◌, []};
ghost use Rattle.{re_syntax.specs.Expression.Expression, grep_core.specs.{Run.file_at, Files.Mean}};
ghost use Rattle.grep_session.specs.Working.Kept.{span_places};
ghost use Rattle.grep_live.specs.{Working.LineHits.{IsFirst, IsPlaceAfter, HitsBetween}, Hits.Hit};

use crate::placed_hit::PlacedHit;
use grep_session::Session;

/// Some lines of a file: those of file `k` from place `from` to place `to`.
#[derive(Clone, Copy, Drop)]
pub struct LineRange {
    /// The number of the file.
    pub k: usize,
    /// The place of the first line.
    pub from: usize,
    /// The place after the last line.
    pub to: usize,
}

/// The number of hits among some lines.
pub fn count_hits(session: &Session, stretch: LineRange) -> usize
    requires in_order { stretch.from ≤ stretch.to }
    requires within { stretch.to ≤ length (file_at session.now.inputs.files stretch.k).lines }
    ensures { (es : List Expression) → Mean session.now.inputs es → (hits : List Hit) →
        HitsBetween es session.now.inputs stretch.k stretch.from stretch.to hits →
        result ≡ length hits }
{
    let before = session.hits_before(stretch.k, stretch.from);
    session
        .hits_before(stretch.k, stretch.to)
        .saturating_sub(before)
}

/// The number of hits of file `k`.
pub fn count_file(session: &Session, k: usize) -> usize
    ensures { (es : List Expression) → Mean session.now.inputs es → (hits : List Hit) →
        HitsBetween es session.now.inputs k 0 (length (file_at session.now.inputs.files k).lines) hits →
        result ≡ length hits }
{
    session.hits_before(k, session.line_count(k))
}

/// The first hit among some lines, and its place.
pub fn first_hit(session: &Session, stretch: LineRange) -> Option<PlacedHit<'_>>
    requires in_order { stretch.from ≤ stretch.to }
    requires within { stretch.to ≤ length (file_at session.now.inputs.files stretch.k).lines }
    ensures within { IfSome result
        (λ found. (stretch.from ≤ found.place) × (found.place < stretch.to)) }
    ensures first { (es : List Expression) → Mean session.now.inputs es → (hits : List Hit) →
        HitsBetween es session.now.inputs stretch.k stretch.from stretch.to hits →
        MatchOption result (hits ≡ []) (λ found.
        IsFirst es session.now.inputs stretch.k stretch.to found.place found.hit.text.now
        (map span_places found.hit.parts.now) hits) }
{
    let place = session.next_hit(stretch.k, stretch.from);
    if place >= stretch.to {
        return None;
    }
    let Some(hit) = session.hit(stretch.k, place) else {
        return None;
    };
    Some(PlacedHit { place, hit })
}

/// The least place of file `k` before which there are `number` hits.
pub fn place_after(session: &Session, k: usize, number: usize) -> usize
    requires { (es : List Expression) → Mean session.now.inputs es → (hits : List Hit) →
        HitsBetween es session.now.inputs k 0 (length (file_at session.now.inputs.files k).lines) hits →
        number ≤ length hits }
    ensures within { result ≤ length (file_at session.now.inputs.files k).lines }
    ensures place { (es : List Expression) → Mean session.now.inputs es →
        IsPlaceAfter es session.now.inputs k number result }
{
    let mut low = 0;
    let mut high = session.line_count(k);
    while low < high {
        let middle = low + (high - low) / 2;
        if session.hits_before(k, middle) < number {
            low = middle + 1;
            continue;
        }
        high = middle;
    }
    high
}
