//! How the search of a file and a run end, and why they are given up.
ghost use Rattle.std.specs.Prelude.{◌≡◌, ◌<◌, nat_lt};
ghost use Rattle.grep_core.specs.Working.Searched.{is_missing, is_fault};

use grep_io::WriteFault;

/// How the search of a file ended.
#[derive(Clone, Copy, PartialEq, Eq, Debug, Drop)]
pub enum FileEnd {
    /// The file could not be opened.
    Missing,
    /// All its lines were searched.
    Whole,
    /// A read failed, or there were more lines than can be numbered.
    Broken,
    /// It was left at its first selected line.
    Left,
}

impl FileEnd {
    /// Whether the file could not be opened.
    pub fn is_missing(self) -> bool
        ensures { result ≡ is_missing self }
    {
        match self {
            FileEnd::Missing => true,
            FileEnd::Whole => false,
            FileEnd::Broken => false,
            FileEnd::Left => false,
        }
    }

    /// Whether the file could not be opened, or a read failed.
    pub fn is_fault(self) -> bool
        ensures { result ≡ is_fault self }
    {
        match self {
            FileEnd::Missing => true,
            FileEnd::Whole => false,
            FileEnd::Broken => true,
            FileEnd::Left => false,
        }
    }
}

/// What the search of a file found.
#[derive(Clone, Copy, PartialEq, Eq, Debug, Drop)]
pub struct FileFound {
    /// How it ended.
    pub end: FileEnd,
    /// How many of the lines that were searched are selected.
    pub selected: u64,
}

impl FileFound {
    /// Whether a line is selected.
    pub fn has_selected(self) -> bool
        ensures { result ≡ nat_lt 0 self.selected }
    {
        self.selected > 0
    }
}

/// Why a search of lines was given up.
#[derive(Clone, Copy, PartialEq, Eq, Debug, Drop)]
pub enum SearchFault {
    Write,
    /// An allocation failed after this number of lines.
    Memory(u64),
}

impl From<WriteFault> for SearchFault {
    ghost use Rattle.std.specs.Prelude.{◌≡◌};
    ghost use Rattle.grep_core.specs.declared.status.SearchFault.{SearchFault};

    ghost from_gives = { λ _ fault. fault ≡ SearchFault.Write };

    fn from(_: WriteFault) -> SearchFault {
        SearchFault::Write
    }
}

/// How a run ended (XCU grep, EXIT STATUS).
#[derive(Clone, Copy, PartialEq, Eq, Debug, Drop)]
pub enum Status {
    /// A line was selected: exit status 0.
    Selected,
    /// No line was selected: exit status 1.
    NoneSelected,
    /// A file could not be opened or read: exit status 2.
    Error,
}

/// Why a run was given up.
#[derive(Clone, Copy, PartialEq, Eq, Debug, Drop)]
pub enum RunFault {
    /// The output could not be written. What was written is a beginning of it.
    Write,
    /// A message could not be written. What was written is a beginning of the messages.
    MessageWrite,
    /// An allocation failed in this source, counted from 0, when this number of its lines were
    /// wholly done.
    Memory { source: usize, lines: u64 },
}
