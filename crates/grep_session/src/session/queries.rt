//! What a session holds: its files and their lines, which lines an editor lists, and how many
//! states are kept. No line is searched and nothing is allocated.
ghost use Rattle.std.specs.Prelude.{take, ◌*◌, map, MatchOption, ◌≤◌, ◌<◌, length, get_or, List};
ghost use Rattle.std.specs.Prelude.{[], ℕ, ◌≡◌};
ghost use Rattle.re_syntax.specs.{Expression.Expression, Profile.most_states};
ghost use Rattle.{re_search.specs.Working.Blocks.HoldsOfMany, grep_core.specs.Run.file_at};
ghost use Rattle.grep_core.specs.Files.{Mean, Selected};
ghost use Rattle.grep_session.specs.{Working.Kept.span_places, Listed.ListedParts, Marks.AreFit};

use crate::caches::{Caches, kept_by};
use crate::hit::Hit;
use crate::session::Session;
use line_marks::Mark;

impl Session {
    /// The number of files.
    pub fn file_count(&self) -> usize
        ensures { result ≡ length self.now.inputs.files }
    {
        self.files.len()
    }

    /// The number of lines of file `k`: none if it cannot be opened or is not there.
    pub fn line_count(&self, k: usize) -> usize
        ensures { result ≡ length (file_at self.now.inputs.files k).lines }
    {
        let Some(file) = self.files.get(k) else {
            return 0;
        };
        file.line_count()
    }

    /// Line `place` of file `k` as an editor lists it, where grep selects it; both are numbered
    /// from 0. Its parts are listed under `-o`.
    pub fn hit(&self, k: usize, place: usize) -> Option<Hit<'_>>
        requires { place < length (file_at self.now.inputs.files k).lines }
        ensures { (es : List Expression) → Mean self.now.inputs es →
            let line = get_or (file_at self.now.inputs.files k).lines place [] in
            MatchOption result (Selected es self.now.inputs.options line → ⊥)
            (λ hit. Selected es self.now.inputs.options line × (hit.text.now ≡ line) ×
            ListedParts es self.now.inputs.options line (map span_places hit.parts.now)) }
    {
        self.files[k].hit(&self.options, place)
    }

    /// The number of lines of file `k` before line `place` that grep selects.
    pub fn hits_before(&self, k: usize, place: usize) -> usize
        requires { place ≤ length (file_at self.now.inputs.files k).lines }
        ensures { (es : List Expression) → Mean self.now.inputs es →
            HoldsOfMany (Selected es self.now.inputs.options)
            (take place (file_at self.now.inputs.files k).lines) result }
    {
        let Some(file) = self.files.get(k) else {
            return 0;
        };
        file.selected_before(&self.options, place)
    }

    /// The first line of file `k`, from line `place` on, that grep selects; the number of its lines
    /// if there is none.
    pub fn next_hit(&self, k: usize, place: usize) -> usize
        requires { place ≤ length (file_at self.now.inputs.files k).lines }
        ensures after { place ≤ result }
        ensures within { result ≤ length (file_at self.now.inputs.files k).lines }
        ensures passed { (es : List Expression) → Mean self.now.inputs es →
            (i : ℕ) → place ≤ i → i < result →
            Selected es self.now.inputs.options (get_or (file_at self.now.inputs.files k).lines i []) → ⊥ }
        ensures hit { (es : List Expression) → Mean self.now.inputs es →
            result < length (file_at self.now.inputs.files k).lines →
            Selected es self.now.inputs.options (get_or (file_at self.now.inputs.files k).lines result []) }
    {
        let Some(file) = self.files.get(k) else {
            return 0;
        };
        file.next_selected(&self.options, place)
    }

    /// The marks of all files.
    pub fn marks(&self) -> &[Mark]
        ensures are { result.now ≡ self.now.marks }
        ensures fit { AreFit self.now.inputs.files self.now.marks }
    {
        &self.marks
    }

    /// How many states the matchers of the patterns keep together, and how many each may keep: the
    /// number that the session was made with.
    pub fn cached(&self) -> Caches
        ensures within { result.kept ≤ length self.now.inputs.patterns * result.each }
        ensures each { result.each ≡ self.now.states }
        ensures few { result.each ≤ most_states }
    {
        Caches {
            kept: kept_by(&self.matchers, self.states),
            each: self.states,
        }
    }
}
