ghost use Rattle.std.specs.Prelude.{IsTrue, ◌↔◌};
ghost use Rattle.re_auto.specs.Working.SteppedSets.{MayBegin};

/// Where the stretches of a search may begin.
#[derive(Clone, Copy, PartialEq, Eq, Debug, Drop)]
pub enum Mode {
    /// Anywhere on the line.
    Search,
    /// Only at the line's first place, as the option `-x` wants (XCU grep).
    Whole,
}

impl Mode {
    /// Whether a stretch of the mode may begin at a place; `at_begin` says that it is the line's
    /// first.
    #[inline(always)]
    pub(crate) fn may_begin(self, at_begin: bool) -> bool
        ensures { IsTrue result ↔ MayBegin self at_begin }
    {
        match self {
            Mode::Search => true,
            Mode::Whole => at_begin,
        }
    }
}
