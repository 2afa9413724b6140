//! A page of the hits of all files.
ghost use Rattle.std.specs.Prelude.{◌≡◌, ◌≤◌, ◌-◌, ◌^◌, ◌∷◌, List, min, length, map, IfOk};
ghost use Rattle.{re_syntax.specs.Expression.Expression, grep_core.specs.Output.written};
ghost use Rattle.grep_core.specs.{Run.file_at, Written.Writes, Files.Mean};
ghost use Rattle.grep_live.specs.{Hits.{Hit, View, AreHits}, Rows.{all_hits, page_rows, total_row}};
ghost use Rattle.grep_live.specs.Working.{LineHits.HitsBetween, PageRest.IsRest};

use crate::hits::{LineRange, count_file, first_hit, place_after};
use crate::row_form::RowForm;
use crate::rows::{write_hit_row, write_number_row};
use grep_core::{CountedWrite, WriteFault};
use grep_session::Session;

/// How many hits are still to be skipped, and how many more are written at most.
#[derive(Drop)]
pub struct Page {
    /// The hits to be skipped.
    pub skip: usize,
    /// The hits to be written.
    pub left: usize,
}

/// The number of hits of all files, at most the greatest `usize`.
fn count_all(session: &Session) -> usize
    ensures { (es : List Expression) → Mean session.now.inputs es → (view : View) →
        AreHits es session.now.inputs.options session.now.inputs.files view →
        result ≡ min (length (all_hits 0 view)) (2 ^ 64 - 1) }
{
    let mut total: usize = 0;
    for k in 0..session.file_count() {
        let count = count_file(session, k);
        total = total.saturating_add(count);
    }
    total
}

/// Writes the rows of at most `left` hits among some lines, and returns how many more are left.
fn show_hits<W: CountedWrite>(
    session: &Session,
    stretch: LineRange,
    left: usize,
    form: RowForm<'_>,
    out: &mut W,
) -> Result<usize, WriteFault>
    requires in_order { stretch.from ≤ stretch.to }
    requires within { stretch.to ≤ length (file_at session.now.inputs.files stretch.k).lines }
    ensures wrote { (es : List Expression) → Mean session.now.inputs es → (hits : List Hit) →
        HitsBetween es session.now.inputs stretch.k stretch.from stretch.to hits →
        Writes W.contents W.failures out.old out.new
        (written form.entry.margin.now
        (page_rows form.entry.has_text 0 left (map (λ hit. (stretch.k, hit)) hits))) result }
    ensures rest { IfOk result (λ more. (es : List Expression) → Mean session.now.inputs es →
        (hits : List Hit) → HitsBetween es session.now.inputs stretch.k stretch.from stretch.to hits →
        more ≡ left - length hits) }
{
    let mut from = stretch.from;
    for shown in 0..left {
        let Some(found) = first_hit(session, LineRange { from, ..stretch }) else {
            return Ok(left - shown);
        };
        write_hit_row(out, form, b"p", &[stretch.k, found.place], found.hit)?;
        from = found.place + 1;
    }
    Ok(0)
}

/// Writes the rows of the hits of file `k` that are on the page. Hits that are skipped are counted,
/// and not looked for.
fn show_file<W: CountedWrite>(
    session: &Session,
    k: usize,
    page: &mut Page,
    form: RowForm<'_>,
    out: &mut W,
) -> Result<(), WriteFault>
    ensures wrote { (es : List Expression) → Mean session.now.inputs es → (hits : List Hit) →
        HitsBetween es session.now.inputs k 0 (length (file_at session.now.inputs.files k).lines) hits →
        Writes W.contents W.failures out.old out.new (written form.entry.margin.now
        (page_rows form.entry.has_text page.old.skip page.old.left (map (λ hit. (k, hit)) hits)))
        result }
    ensures rest { IfOk result (λ _. (es : List Expression) → Mean session.now.inputs es →
        (hits : List Hit) →
        HitsBetween es session.now.inputs k 0 (length (file_at session.now.inputs.files k).lines) hits →
        IsRest page.old (length hits) page.new) }
{
    let count = count_file(session, k);
    if count <= page.skip {
        page.skip -= count;
        return Ok(());
    }
    let from = place_after(session, k, page.skip);
    let to = session.line_count(k);
    page.skip = 0;
    page.left = show_hits(session, LineRange { k, from, to }, page.left, form, out)?;
    Ok(())
}

/// Writes the rows of at most `count` hits from number `first` on, of all files in order.
fn write_page<W: CountedWrite>(
    session: &Session,
    first: usize,
    count: usize,
    form: RowForm<'_>,
    out: &mut W,
) -> Result<(), WriteFault>
    ensures { (es : List Expression) → Mean session.now.inputs es → (view : View) →
        AreHits es session.now.inputs.options session.now.inputs.files view →
        Writes W.contents W.failures out.old out.new (written form.entry.margin.now
        (page_rows form.entry.has_text first count (all_hits 0 view))) result }
{
    let mut page = Page {
        skip: first,
        left: count,
    };
    for k in 0..session.file_count() {
        if page.left == 0 {
            return Ok(());
        }
        show_file(session, k, &mut page, form, out)?;
    }
    Ok(())
}

/// Writes the number of hits, and the rows of at most `count` of them from number `first` on.
pub fn write_hits_page<W: CountedWrite>(
    session: &Session,
    first: usize,
    count: usize,
    form: RowForm<'_>,
    out: &mut W,
) -> Result<(), WriteFault>
    ensures { (es : List Expression) → Mean session.now.inputs es → (view : View) →
        AreHits es session.now.inputs.options session.now.inputs.files view →
        Writes W.contents W.failures out.old out.new (written form.entry.margin.now
        (total_row (min (length (all_hits 0 view)) (2 ^ 64 - 1)) ∷
        page_rows form.entry.has_text first count (all_hits 0 view))) result }
{
    let total = count_all(session);
    write_number_row(out, form.margin, b"hits", &[total])?;
    write_page(session, first, count, form, out)
}
