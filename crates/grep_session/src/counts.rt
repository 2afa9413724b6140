//! Which lines of a file grep selects, by their places.
ghost use Rattle.std.specs.Prelude.{◌≡◌, ◌≤◌, ◌<◌, ℕ, List, [], length, take, get_or};
ghost use Rattle.re_syntax.specs.Expression.{Expression};
ghost use Rattle.{re_search.specs.Working.Blocks.HoldsOfMany, grep_core.specs.Files.Selected};
ghost use Rattle.line_chunks.specs.Working.Chunks.{all_of};
ghost use Rattle.grep_session.specs.Working.Report.{selected_count, SelectedFrom};
ghost use Rattle.grep_session.specs.Working.Kept.{IsFileKept, kept_file};

use crate::kept::{FileLines, KeptFile};
use grep_core::Options;

/// The number of selected lines among those before line `place`.
fn count_selected(lines: &FileLines, options: &Options, place: usize) -> usize
    requires { place ≤ length (all_of lines.now) }
    ensures { result ≡ selected_count options.now (take place (all_of lines.now)) }
{
    let matched = lines.hits_before(place);
    if options.invert_match {
        return place - matched;
    }
    matched
}

/// The number of selected lines.
pub fn count_all(lines: &FileLines, options: &Options) -> u64
    ensures { result ≡ selected_count options.now (all_of lines.now) }
{
    count_selected(lines, options, lines.len()) as u64
}

/// The first selected line from line `place` on, or the number of lines.
pub fn find_selected(lines: &FileLines, options: &Options, place: usize) -> usize
    requires { place ≤ length (all_of lines.now) }
    ensures { SelectedFrom options.now (all_of lines.now) place result }
{
    lines.next_line(place, !options.invert_match)
}

impl KeptFile {
    /// The number of selected lines of the file before line `place`.
    pub fn selected_before(&self, options: &Options, place: usize) -> usize
        requires { place ≤ length (kept_file self.now).lines }
        ensures { (es : List Expression) → IsFileKept es options.now self.now →
            HoldsOfMany (Selected es options.now) (take place (kept_file self.now).lines) result }
    {
        let Some(lines) = &self.lines else {
            return 0;
        };
        count_selected(lines, options, place)
    }

    /// The first selected line of the file from line `place` on, or the number of its lines.
    pub fn next_selected(&self, options: &Options, place: usize) -> usize
        requires { place ≤ length (kept_file self.now).lines }
        ensures after { place ≤ result }
        ensures within { result ≤ length (kept_file self.now).lines }
        ensures passed { (es : List Expression) → IsFileKept es options.now self.now →
            (i : ℕ) → place ≤ i → i < result →
            Selected es options.now (get_or (kept_file self.now).lines i []) → ⊥ }
        ensures hit { (es : List Expression) → IsFileKept es options.now self.now →
            result < length (kept_file self.now).lines →
            Selected es options.now (get_or (kept_file self.now).lines result []) }
    {
        let Some(lines) = &self.lines else {
            return 0;
        };
        find_selected(lines, options, place)
    }
}
