//! Which lines of a file are shown: the selected ones, and those around them.
ghost use Rattle.std.specs.Prelude.{◌≡◌, ◌-◌, ◌≤◌, All, List, length, map};
ghost use Rattle.{re_syntax.specs.Expression.Expression, grep_core.specs.Output.form};
ghost use Rattle.line_chunks.specs.Working.Chunks.{all_of, line_text};
ghost use Rattle.grep_session.specs.Working.Report.{SelectedFrom, context_as, NextShown};
ghost use Rattle.grep_session.specs.Working.Kept.{IsKept};

use crate::counts::find_selected;
use crate::kept::FileLines;
use grep_core::{Context, Form, Options};

/// How many lines are shown around each selected one, if lines or parts of them are written.
pub fn context_of(options: &Options) -> Option<Context>
    ensures { result ≡ context_as (form options.now) }
{
    let none = Context {
        before: 0,
        after: 0,
    };
    match options.form() {
        Form::Lines => Some(none),
        Form::Parts => Some(none),
        Form::Around(context) => Some(context),
        Form::Nothing => None,
        Form::Names => None,
        Form::Counts => None,
    }
}

/// The first selected line from line `place` on, if `near` is the first from some line before on.
fn find_near(lines: &FileLines, options: &Options, near: usize, place: usize) -> usize
    requires inside { place ≤ length (all_of lines.now) }
    requires near { SelectedFrom options.now (all_of lines.now) (place - 1) near }
    ensures { SelectedFrom options.now (all_of lines.now) place result }
{
    if near < place {
        return find_selected(lines, options, place);
    }
    near
}

/// The first line from line `k` on that is shown, or the number of lines, and before it the first
/// selected line that is near enough to show it. `near` is that of the line before line `k`.
pub fn next_shown(
    lines: &FileLines,
    options: &Options,
    context: Context,
    near: usize,
    k: usize,
) -> (usize, usize)
    requires inside { k ≤ length (all_of lines.now) }
    requires near { SelectedFrom options.now (all_of lines.now) (k - context.after - 1) near }
    ensures after { k ≤ result.1 }
    ensures within { result.1 ≤ length (all_of lines.now) }
    ensures near { SelectedFrom options.now (all_of lines.now) (result.1 - context.after) result.0 }
    ensures shown { (es : List Expression) → All (IsKept es options.now) (all_of lines.now) →
        NextShown es options.now context (map line_text (all_of lines.now)) k result.1 }
{
    let near = find_near(
        lines,
        options,
        near,
        k.saturating_sub(context.after as usize),
    );
    if near == lines.len() {
        return (near, near);
    }
    let first = near.saturating_sub(context.before as usize);
    if first < k {
        return (near, k);
    }
    (near, first)
}
