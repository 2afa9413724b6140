//! What C keeps.
use crate::live::Live;
use crate::patterns::Patterns;

/// The patterns of a matcher, or a session.
#[derive(Drop)]
pub enum Held {
    /// The patterns of a matcher.
    Patterns(Patterns),
    /// A session.
    Session(Live),
}
