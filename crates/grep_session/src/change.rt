//! How the patterns changed.
ghost use Rattle.std.specs.Prelude.{◌≡◌};
ghost use Rattle.grep_session.specs.Working.Changed.{anew, exchanged};

/// Patterns that went, and others that came in their place, after which lines are searched again.
#[derive(Clone, Copy, Drop)]
pub struct Change {
    /// The number of the first pattern that went or came.
    pub first: usize,
    /// How many patterns went.
    pub gone: usize,
    /// How many came.
    pub come: usize,
    /// Whether those that came match no line that none of those that went matched.
    pub narrower: bool,
    /// Whether the parts of all lines are searched. Otherwise those of the lines are that a pattern
    /// that went or came matches.
    pub all_parts: bool,
}

impl Change {
    /// From number `first` on so many patterns went, and so many came.
    pub fn new(first: usize, gone: usize, come: usize, narrower: bool) -> Change
        ensures { result ≡ exchanged first gone come narrower }
    {
        Change {
            first,
            gone,
            come,
            narrower,
            all_parts: false,
        }
    }

    /// The first patterns went, as many as this, so many came, and all parts are searched.
    pub fn anew(gone: usize, come: usize) -> Change
        ensures { result ≡ anew gone come }
    {
        Change {
            first: 0,
            gone,
            come,
            narrower: false,
            all_parts: true,
        }
    }
}
