//! What is known of files and lines without a search, from what is kept of them.
ghost use Rattle.std.specs.Prelude.{◌≡◌, ◌<◌, length, get_or};
ghost use Rattle.line_chunks.specs.Working.Chunks.{all_of, no_line};
ghost use Rattle.grep_session.specs.Working.Report.{has_selected, some_selected, is_selected};
ghost use Rattle.grep_session.specs.Working.{Report.end_of, Kept.kept_file};

use crate::kept::{FileLines, KeptFile};
use grep_core::{FileEnd, Options};

/// Whether grep selects line `k`: some pattern matches it, and under `-v` none does.
pub fn is_selected(lines: &FileLines, k: usize, options: &Options) -> bool
    requires { k < length (all_of lines.now) }
    ensures { result ≡ is_selected options.now (get_or (all_of lines.now) k no_line) }
{
    options.selects(lines.is_matched(k))
}

/// Whether some line is selected.
fn some_selected(lines: &FileLines, options: &Options) -> bool
    ensures { result ≡ some_selected options.now (all_of lines.now) }
{
    if options.invert_match {
        return lines.hits() < lines.len();
    }
    lines.hits() > 0
}

impl KeptFile {
    /// Whether the file could be opened.
    pub fn end(&self) -> FileEnd
        ensures { result ≡ end_of self.now }
    {
        match &self.lines {
            Some(_) => FileEnd::Whole,
            None => FileEnd::Missing,
        }
    }

    /// The number of lines of the file: none if it could not be opened.
    pub fn line_count(&self) -> usize
        ensures { result ≡ length (kept_file self.now).lines }
    {
        match &self.lines {
            Some(lines) => lines.len(),
            None => 0,
        }
    }

    /// Whether a line of the file is selected.
    pub fn has_selected(&self, options: &Options) -> bool
        ensures { result ≡ has_selected options.now self.now }
    {
        match &self.lines {
            Some(lines) => some_selected(lines, options),
            None => false,
        }
    }
}
