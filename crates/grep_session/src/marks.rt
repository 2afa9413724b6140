//! The marks of all files.
ghost use Rattle.std.specs.Prelude.{◌≡◌, ◌+◌, ◌-◌, ◌<◌, ◌≤◌, ◌++◌, ◌∷◌, [], length, map, IfOk};
ghost use Rattle.std.specs.Prelude.{OnErr};
ghost use Rattle.line_marks.specs.Stretches.{lost, new_mark, whole_mark};
ghost use Rattle.grep_session.specs.{Working.{Kept.kept_file, Sessions.SplicesMark}, Marks.mark_at};

use crate::kept::KeptFile;
use line_marks::Mark;
use std::alloc::AllocError;

/// Leaves no line of any file untouched.
pub fn lose_all(marks: &mut Vec<Mark>)
    ensures { marks.new.items ≡ map lost marks.old.items }
{
    for mark in marks.iter_mut() {
        mark.lose();
    }
}

/// Makes each mark whole: all changes of all files are reported.
pub fn know_all(marks: &mut Vec<Mark>)
    ensures { marks.new.items ≡ map (λ mark. whole_mark mark.lines) marks.old.items }
{
    for mark in marks.iter_mut() {
        mark.report();
    }
}

/// Notes that `count` lines of file `k` from line `start` on were replaced, and that it has `lines`
/// lines now.
pub fn touch(marks: &mut Vec<Mark>, k: usize, start: usize, count: usize, lines: usize)
    requires inside { k < length marks.old.items }
    requires within { start + count ≤ (mark_at marks.old.items k).lines }
    requires rest { (mark_at marks.old.items k).lines - count ≤ lines }
    ensures { SplicesMark k start count (lines - ((mark_at marks.old.items k).lines - count))
        marks.old.items marks.new.items }
{
    let mark = &mut marks[k];
    let added = lines - (mark.lines() - count);
    mark.splice(start, count, added);
}

/// Adds a file, of which no line was reported yet. If memory runs out, all stays as it is.
pub fn push_file(
    files: &mut Vec<KeptFile>,
    marks: &mut Vec<Mark>,
    file: KeptFile,
) -> Result<(), AllocError>
    ensures ok { IfOk result (λ _. (files.new.items ≡ files.old.items ++ file ∷ []) ×
        (marks.new.items ≡ marks.old.items ++ new_mark (length (kept_file file).lines) ∷ [])) }
    ensures err { OnErr result
        ((files.new.items ≡ files.old.items) × (marks.new.items ≡ marks.old.items)) }
{
    let lines = file.line_count();
    marks.try_reserve(1)?;
    files.push(file)?;
    let _ = marks.push(Mark::new(lines));
    Ok(())
}
