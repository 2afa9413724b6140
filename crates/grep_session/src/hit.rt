//! A line as an editor lists it.
ghost use Rattle.std.specs.Prelude.{◌≡◌, ◌<◌, List, [], map, length, get_or, MatchOption};
ghost use Rattle.{re_syntax.specs.Expression.Expression, grep_core.specs.Files.Selected};
ghost use Rattle.line_chunks.specs.Working.Chunks.{all_of, no_line};
ghost use Rattle.grep_session.specs.Working.Kept.{IsFileKept, kept_file, span_places, listed_spans};
ghost use Rattle.grep_session.specs.Listed.{ListedParts};

use crate::kept::{FileLines, KeptFile};
use crate::verdicts::is_selected;
use grep_core::Options;
use re_search::Span;

/// A selected line: its text, and its parts, which are listed under `-o` alone.
#[derive(Clone, Copy)]
pub struct Hit<'a> {
    /// The line, without a newline.
    pub text: &'a [u8],
    /// Its parts, under `-o`.
    pub parts: &'a [Span],
}

/// The listed parts of line `k`: under `-o` those that are kept, and otherwise none.
fn listed_parts<'a>(lines: &'a FileLines, k: usize, options: &Options) -> &'a [Span]
    requires { k < length (all_of lines.now) }
    ensures { result.now ≡ listed_spans options.now (get_or (all_of lines.now) k no_line) }
{
    if options.only_matching {
        return lines.spans(k);
    }
    &[]
}

impl KeptFile {
    /// Line `place` of the file as an editor lists it, where it is selected.
    pub fn hit(&self, options: &Options, place: usize) -> Option<Hit<'_>>
        requires { place < length (kept_file self.now).lines }
        ensures { (es : List Expression) → IsFileKept es options.now self.now →
            let line = get_or (kept_file self.now).lines place [] in
            MatchOption result (Selected es options.now line → ⊥)
            (λ hit. Selected es options.now line × (hit.text.now ≡ line) ×
            ListedParts es options.now line (map span_places hit.parts.now)) }
    {
        let Some(lines) = &self.lines else {
            return None;
        };
        if !is_selected(lines, place, options) {
            return None;
        }
        Some(Hit {
            text: lines.line(place),
            parts: listed_parts(lines, place, options),
        })
    }
}
