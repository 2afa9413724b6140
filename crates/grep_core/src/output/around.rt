//! Which lines around selected ones are shown, and when.
ghost use Rattle.std.specs.Prelude.{◌≡◌, ◌+◌, ◌≤◌};
ghost use Rattle.grep_core.specs.Working.Progress.{progress_from, next_shown, with_waiting};
ghost use Rattle.grep_core.specs.Working.Progress.{after_line};

use crate::options::Context;

/// What is shown at a line of a file.
#[derive(Clone, Copy, PartialEq, Eq, Debug, Drop)]
pub struct Shown {
    /// Whether a separator is written first.
    pub separated: bool,
    /// How many of the lines just before it are shown now.
    pub before: u64,
    /// Whether the line itself is shown.
    pub itself: bool,
}

/// How far the lines of a file are done, where lines around selected ones are shown.
#[derive(Clone, Copy, PartialEq, Eq, Debug, Drop)]
pub struct Progress {
    /// How many lines are asked for around a selected one.
    pub context: Context,
    /// Whether some line is shown, of this file or of one before it.
    pub shown: bool,
    /// Whether there is no line before those that wait, or it is not shown.
    pub gap: bool,
    /// How many lines wait: the last ones that were not shown and may be before the next selected
    /// line; at most the number that is asked for.
    pub waiting: u64,
    /// How many lines are still shown after the last selected one.
    pub left: u64,
}

impl Progress {
    /// Before the first line of a file; `shown` says whether some line of a file before it is
    /// shown.
    pub fn new(context: Context, shown: bool) -> Progress
        ensures { result ≡ progress_from context shown }
    {
        Progress {
            context,
            shown,
            gap: true,
            waiting: 0,
            left: 0,
        }
    }

    /// Goes over the next line, which is selected or is not, and returns what is shown at it.
    pub fn step(&mut self, selected: bool) -> Shown
        requires few { self.old.waiting ≤ self.old.context.before }
        ensures shown { result ≡ next_shown self.old selected }
        ensures now { self.new ≡ after_line self.old selected }
    {
        if selected {
            let shown = Shown {
                separated: self.gap & self.shown,
                before: self.waiting,
                itself: true,
            };
            self.shown = true;
            self.gap = false;
            self.waiting = 0;
            self.left = self.context.after;
            return shown;
        }
        let itself = self.left > 0;
        if itself {
            self.left -= 1;
        } else {
            self.wait(1);
        }
        Shown {
            separated: false,
            before: 0,
            itself,
        }
    }

    /// Goes over `count` lines, none of which is shown yet.
    pub fn wait(&mut self, count: u64)
        requires few { self.old.waiting ≤ self.old.context.before }
        ensures now { self.new ≡ with_waiting count self.old }
    {
        let room = self.context.before - self.waiting;
        if count > room {
            self.gap = true;
            self.waiting = self.context.before;
        } else {
            self.waiting += count;
        }
    }
}
