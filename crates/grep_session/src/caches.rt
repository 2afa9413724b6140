//! How much the matchers of a session keep.
ghost use Rattle.std.specs.Prelude.{◌*◌, ◌≤◌, length};
ghost use Rattle.grep_core.specs.Working.MatcherLists.{KeepAtMost};

use re_search::Matcher;

/// How many states the matchers of a session keep together, and how many each may keep.
#[derive(Clone, Copy, Drop)]
pub struct Caches {
    /// How many states all matchers keep.
    pub kept: usize,
    /// How many states each of them may keep, as the session was told.
    pub each: usize,
}

/// How many states the matchers keep together.
pub fn kept_by(matchers: &[Matcher], each: usize) -> usize
    requires { KeepAtMost each matchers.now }
    ensures { result ≤ length matchers.now * each }
{
    let mut kept: usize = 0;
    for matcher in matchers {
        kept = kept.saturating_add(matcher.cached());
    }
    kept
}
