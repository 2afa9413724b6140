//! The numbers of lines that `-A`, `-B` and `-C` ask for.
ghost use Rattle.std.specs.Prelude.{◌≡◌};
ghost use Rattle.grep_utility.specs.Words.{context_of, with_lines};

use grep_core::Context;

/// On which side of selected lines an option has lines shown.
#[derive(Clone, Copy, PartialEq, Eq, Debug, Drop)]
pub enum Side {
    /// `-A`: after them.
    After,
    /// `-B`: before them.
    Before,
    /// `-C`: on both sides, where the side's own option isn't given.
    Both,
}

/// The number that each of the options was given last.
#[derive(Clone, Copy, Default, Drop)]
pub struct Around {
    /// `-A`
    pub after: Option<u64>,
    /// `-B`
    pub before: Option<u64>,
    /// `-C`
    pub both: Option<u64>,
}

impl Around {
    /// The option for this side is given a number.
    pub fn set(&mut self, side: Side, count: u64)
        ensures { self.new ≡ with_lines side count self.old }
    {
        match side {
            Side::After => self.after = Some(count),
            Side::Before => self.before = Some(count),
            Side::Both => self.both = Some(count),
        }
    }

    /// How many lines are shown around selected ones, where one of the options is given.
    pub fn context(self) -> Option<Context>
        ensures { result ≡ context_of self }
    {
        let before = self.before.or(self.both);
        let after = self.after.or(self.both);
        match (before, after) {
            (None, None) => None,
            (None, Some(after)) => Some(Context { before: 0, after }),
            (Some(before), after) => Some(Context {
                before,
                after: after.unwrap_or(0),
            }),
        }
    }
}
