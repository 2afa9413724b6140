//! A hit with its place.
use grep_session::Hit;

/// A hit, and the place of its line in its file, counted from 0.
#[derive(Clone, Copy)]
pub struct PlacedHit<'a> {
    /// The place.
    pub place: usize,
    /// The hit.
    pub hit: Hit<'a>,
}
