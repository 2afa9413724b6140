//! What changed of the files of a session, as rows.
ghost use Rattle.std.specs.Prelude.{◌≡◌, ◌-◌, ◌≤◌, ◌&&◌, ◌∷◌, List, map, length, nat_eq};
ghost use Rattle.std.specs.List.{flat_map};
ghost use Rattle.{re_syntax.specs.Expression.Expression, grep_core.specs.Files.Mean};
ghost use Rattle.grep_core.specs.{Written.Writes, Run.file_at, Output.written};
ghost use Rattle.{grep_session.specs.Marks.{AreFit, IsFit}, grep_live.specs.Hits.{Hit, AllThree}};
ghost use Rattle.grep_live.specs.Rows.{hit_row, change_row, change_rows, changes_rows};
ghost use Rattle.grep_live.specs.{Changes.{Change, ChangesFile}, Working.LineHits.HitsBetween};

use crate::hits::{LineRange, count_hits, first_hit};
use crate::row_form::RowForm;
use crate::rows::{write_hit_row, write_number_row};
use grep_core::{CountedWrite, WriteFault};
use grep_session::Session;
use line_marks::Mark;

/// Writes a row for each hit among some lines.
fn write_hits<W: CountedWrite>(
    session: &Session,
    stretch: LineRange,
    form: RowForm<'_>,
    out: &mut W,
) -> Result<(), WriteFault>
    requires in_order { stretch.from ≤ stretch.to }
    requires within { stretch.to ≤ length (file_at session.now.inputs.files stretch.k).lines }
    ensures { (es : List Expression) → Mean session.now.inputs es → (hits : List Hit) →
        HitsBetween es session.now.inputs stretch.k stretch.from stretch.to hits → Writes W.contents W.failures out.old out.new
        (written form.entry.margin.now (map (hit_row form.entry.has_text) hits)) result }
{
    let mut from = stretch.from;
    while let Some(found) = first_hit(session, LineRange { from, ..stretch }) {
        write_hit_row(out, form, b"r", &[found.place], found.hit)?;
        from = found.place + 1;
    }
    Ok(())
}

/// Whether no line was removed and none was added.
fn is_idle(removed: usize, added: usize) -> bool
    ensures { result ≡ (nat_eq removed 0 && nat_eq added 0) }
{
    (removed == 0) & (added == 0)
}

/// Writes the rows of a change of a file: `removed` lines were replaced by those of the stretch, and
/// a row for each hit among the new ones.
fn write_rows<W: CountedWrite>(
    session: &Session,
    removed: usize,
    stretch: LineRange,
    form: RowForm<'_>,
    out: &mut W,
) -> Result<(), WriteFault>
    requires in_order { stretch.from ≤ stretch.to }
    requires within { stretch.to ≤ length (file_at session.now.inputs.files stretch.k).lines }
    ensures { (es : List Expression) → Mean session.now.inputs es → (hits : List Hit) →
        HitsBetween es session.now.inputs stretch.k stretch.from stretch.to hits → Writes W.contents W.failures out.old out.new
        (written form.entry.margin.now (change_row stretch.k (record {
          front = stretch.from;
          removed = removed;
          added = stretch.to - stretch.from;
          come = hits;
        }) ∷ map (hit_row form.entry.has_text) hits)) result }
{
    let LineRange { k, from, to } = stretch;
    let count = count_hits(session, stretch);
    let numbers = [k, from, removed, to - from, count];
    write_number_row(out, form.margin, b"h", &numbers)?;
    write_hits(session, stretch, form, out)
}

/// Writes the rows of a stretch of a file: `removed` lines were replaced by these. If there were none
/// and there are none, it has no row.
fn write_stretch<W: CountedWrite>(
    session: &Session,
    removed: usize,
    stretch: LineRange,
    form: RowForm<'_>,
    out: &mut W,
) -> Result<(), WriteFault>
    requires in_order { stretch.from ≤ stretch.to }
    requires within { stretch.to ≤ length (file_at session.now.inputs.files stretch.k).lines }
    ensures { (es : List Expression) → Mean session.now.inputs es → (hits : List Hit) →
        HitsBetween es session.now.inputs stretch.k stretch.from stretch.to hits → Writes W.contents W.failures out.old out.new
        (written form.entry.margin.now (change_rows form.entry.has_text stretch.k (record {
          front = stretch.from;
          removed = removed;
          added = stretch.to - stretch.from;
          come = hits;
        }))) result }
{
    if is_idle(removed, stretch.to - stretch.from) {
        return Ok(());
    }
    write_rows(session, removed, stretch, form, out)
}

/// Writes what changed of file `k`, by its mark.
fn write_change<W: CountedWrite>(
    session: &Session,
    k: usize,
    mark: &Mark,
    form: RowForm<'_>,
    out: &mut W,
) -> Result<(), WriteFault>
    requires { IsFit (file_at session.now.inputs.files k) mark.now }
    ensures { (es : List Expression) → Mean session.now.inputs es → (changes : List Change) →
        ChangesFile es session.now.inputs.options (file_at session.now.inputs.files k) mark.now changes →
        Writes W.contents W.failures out.old out.new
        (written form.entry.margin.now (flat_map (change_rows form.entry.has_text k) changes))
        result }
{
    let to = session.line_count(k);
    let mut rest = LineRange { k, from: 0, to };
    for stretch in mark.stretches() {
        let from = rest.from + stretch.kept;
        let to = from + stretch.added;
        write_stretch(
            session,
            stretch.removed,
            LineRange { k, from, to },
            form,
            out,
        )?;
        rest.from = to;
    }
    Ok(())
}

/// Writes what changed of each file, by its mark.
pub fn write_changes<W: CountedWrite>(
    session: &Session,
    marks: &[Mark],
    form: RowForm<'_>,
    out: &mut W,
) -> Result<(), WriteFault>
    requires { AreFit session.now.inputs.files marks.now }
    ensures { (es : List Expression) → Mean session.now.inputs es → (changes : List (List Change)) →
        AllThree (ChangesFile es session.now.inputs.options) session.now.inputs.files marks.now changes →
        Writes W.contents W.failures out.old out.new
        (written form.entry.margin.now (changes_rows form.entry.has_text 0 changes)) result }
{
    for (k, mark) in marks.iter().enumerate() {
        write_change(session, k, mark, form, out)?;
    }
    Ok(())
}
