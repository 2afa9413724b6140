//! Which sets of runs are tested for first. No contract depends on it.

use crate::survey::{ALL, Survey};
use re_trees::ByteSet;
use std::alloc::{AllocError, Global};

// How many places are tested at most.
const MOST_PLACES: usize = 4;

// As many bytes of most texts as shares speak of.
const TEXT: u64 = 65_536;

/// The places of the rarest of the runs' first `width` sets, four at most, the rarest first. The only
/// error is that an allocation failed.
pub fn rare_places(
    alloc: Global,
    runs: &[Vec<ByteSet>],
    width: usize,
) -> Result<Vec<usize>, AllocError> {
    let shares = shares_of(alloc, runs, width)?;
    let mut places = Vec::new(alloc);
    for _ in 0..MOST_PLACES {
        let Some(place) = rarest_but(&shares, &places) else {
            return Ok(places);
        };
        places.push(place)?;
    }
    Ok(places)
}

/// At about how many places in 65,536 bytes of most texts the sets that a run has at these places are all
/// passed, for all runs together.
pub fn stops_at(runs: &[Vec<ByteSet>], places: &[usize]) -> u64 {
    let mut stops: u64 = 0;
    for run in runs {
        stops = stops.saturating_add(stops_of(run, places));
    }
    stops
}

// The same of one run.
fn stops_of(run: &[ByteSet], places: &[usize]) -> u64 {
    let mut stops = TEXT;
    for place in places {
        stops = stops.saturating_mul(share_at(run, *place)) / TEXT;
    }
    stops
}

// About how many of 65,536 bytes of most texts are in the sets of the runs, at each of the first `width`
// places.
fn shares_of(alloc: Global, runs: &[Vec<ByteSet>], width: usize) -> Result<Vec<u64>, AllocError> {
    let mut shares = Vec::new(alloc);
    for place in 0..width {
        shares.push(share_of_all(runs, place))?;
    }
    Ok(shares)
}

// About how many are in the sets of the runs at one place.
fn share_of_all(runs: &[Vec<ByteSet>], place: usize) -> u64 {
    let mut share: u64 = 0;
    for run in runs {
        share = share.saturating_add(share_at(run, place));
    }
    share
}

// About how many are in the set at a place of the run.
fn share_at(run: &[ByteSet], place: usize) -> u64 {
    let Some(set) = run.get(place) else {
        return 0;
    };
    match Survey::of(set, ALL) {
        Some(survey) => u64::from(survey.share),
        None => TEXT,
    }
}

// The rarest place that is not taken. Of places that are as rare as each other it is the one farthest from
// the taken ones that are as rare.
fn rarest_but(shares: &[u64], taken: &[usize]) -> Option<usize> {
    let mut rare = None;
    let mut least = u64::MAX;
    let mut farthest = 0;
    for place in 0..shares.len() {
        let share = shares[place];
        let distance = distance_from(taken, shares, place);
        if distance > 0 && (share < least || (share == least && distance > farthest)) {
            least = share;
            farthest = distance;
            rare = Some(place);
        }
    }
    rare
}

// How far a place is from the nearest of the taken ones that are as rare; 0 if it is one of them.
fn distance_from(taken: &[usize], shares: &[u64], place: usize) -> usize {
    let mut least = usize::MAX;
    for other in taken {
        if shares.get(*other) == shares.get(place) {
            least = least.min(place.abs_diff(*other));
        }
    }
    least
}
