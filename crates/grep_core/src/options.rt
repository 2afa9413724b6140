//! The options of a run, and what they ask for.
ghost use Rattle.std.specs.Prelude.{◌≡◌, ◌||◌, ◌↔◌, IsTrue, MatchOption};
ghost use Rattle.grep_core.specs.{Options.{option_of, with_option}, Output.{form, counts, around}};
ghost use Rattle.grep_core.specs.Working.{OneLine.IsPlain, Requests.{form_of, selects}};

/// How many lines are shown around each selected one (GNU grep, `-A`, `-B` and `-C`).
#[derive(Clone, Copy, PartialEq, Eq, Debug, Drop)]
pub struct Context {
    /// `-B`: the number of lines before it.
    pub before: u64,
    /// `-A`: the number of lines after it.
    pub after: u64,
}

/// The options of grep (XCU grep, OPTIONS; `only_matching` and `context` after the GNU manual).
#[derive(Clone, Copy, PartialEq, Eq, Debug, Default, Drop)]
pub struct Options {
    /// `-c`: only the number of selected lines is written.
    pub count: bool,
    /// `-i`: each letter is matched in both cases.
    pub ignore_case: bool,
    /// `-l`: only the names of files with a selected line are written.
    pub files_with_matches: bool,
    /// `-n`: each line is written after its number.
    pub line_number: bool,
    /// `-o`: only the matched parts of a line are written.
    pub only_matching: bool,
    /// `-q`: nothing is written to standard output.
    pub quiet: bool,
    /// `-s`: no message reports a file that cannot be opened or read.
    pub no_messages: bool,
    /// `-v`: the lines that are not matched are selected.
    pub invert_match: bool,
    /// `-x`: a line is matched only as a whole.
    pub line_regexp: bool,
    /// `-A`, `-B` and `-C`: lines around the selected ones are shown, where one of these is given.
    pub context: Option<Context>,
}

/// One of the options of `Options` that are set or not.
#[derive(Clone, Copy, PartialEq, Eq, Debug, Drop)]
pub enum Flag {
    /// `-c`
    Count,
    /// `-i`
    IgnoreCase,
    /// `-l`
    FilesWithMatches,
    /// `-n`
    LineNumber,
    /// `-o`
    OnlyMatching,
    /// `-q`
    Quiet,
    /// `-s`
    NoMessages,
    /// `-v`
    InvertMatch,
    /// `-x`
    LineRegexp,
}

/// What the options ask for (XCU grep, STDOUT): `-q` takes precedence over `-l`, `-l` over `-c`,
/// these over `-o`, and `-o` over lines around.
#[derive(Clone, Copy, PartialEq, Eq, Debug, Drop)]
pub enum Form {
    /// Nothing is written.
    Nothing,
    /// The names of files with a selected line.
    Names,
    /// The number of selected lines of each file.
    Counts,
    /// The matched parts of the selected lines.
    Parts,
    /// The selected lines.
    Lines,
    /// The selected lines and those around them.
    Around(Context),
}

impl Options {
    /// An option's value.
    pub fn get(self, flag: Flag) -> bool
        ensures { result ≡ option_of flag self }
    {
        match flag {
            Flag::Count => self.count,
            Flag::IgnoreCase => self.ignore_case,
            Flag::FilesWithMatches => self.files_with_matches,
            Flag::LineNumber => self.line_number,
            Flag::OnlyMatching => self.only_matching,
            Flag::Quiet => self.quiet,
            Flag::NoMessages => self.no_messages,
            Flag::InvertMatch => self.invert_match,
            Flag::LineRegexp => self.line_regexp,
        }
    }

    /// Sets an option to this value.
    pub fn set(&mut self, flag: Flag, on: bool)
        ensures { self.new ≡ with_option flag on self.old }
    {
        match flag {
            Flag::Count => self.count = on,
            Flag::IgnoreCase => self.ignore_case = on,
            Flag::FilesWithMatches => self.files_with_matches = on,
            Flag::LineNumber => self.line_number = on,
            Flag::OnlyMatching => self.only_matching = on,
            Flag::Quiet => self.quiet = on,
            Flag::NoMessages => self.no_messages = on,
            Flag::InvertMatch => self.invert_match = on,
            Flag::LineRegexp => self.line_regexp = on,
        }
    }

    /// What the options ask for.
    #[inline]
    pub fn form(self) -> Form
        ensures { form_of result ≡ form self }
    {
        if self.quiet {
            return Form::Nothing;
        }
        if self.files_with_matches {
            return Form::Names;
        }
        if self.count {
            return Form::Counts;
        }
        if self.only_matching {
            if self.invert_match {
                return Form::Nothing;
            }
            return Form::Parts;
        }
        match self.context {
            None => Form::Lines,
            Some(context) => Form::Around(context),
        }
    }

    /// How many lines are shown around each selected one, where the options ask for such output.
    pub fn shown_around(self) -> Option<Context>
        ensures { MatchOption result (IsPlain (form self))
            (λ context. form self ≡ around context) }
    {
        match self.form() {
            Form::Around(context) => Some(context),
            Form::Nothing => None,
            Form::Names => None,
            Form::Counts => None,
            Form::Parts => None,
            Form::Lines => None,
        }
    }

    /// Whether only the number of selected lines is written of a file.
    pub fn only_counts(self) -> bool
        ensures { IsTrue result ↔ form self ≡ counts }
    {
        match self.form() {
            Form::Counts => true,
            Form::Nothing => false,
            Form::Names => false,
            Form::Parts => false,
            Form::Lines => false,
            Form::Around(_) => false,
        }
    }

    /// Whether a line is selected that is matched, or is not (XCU grep, DESCRIPTION and option
    /// `-v`).
    #[inline]
    pub fn selects(self, matched: bool) -> bool
        ensures { result ≡ selects self matched }
    {
        matched != self.invert_match
    }

    /// Whether a file is left at its first selected line.
    pub fn leaves_early(self) -> bool
        ensures { result ≡ (self.quiet || self.files_with_matches) }
    {
        self.quiet | self.files_with_matches
    }
}
