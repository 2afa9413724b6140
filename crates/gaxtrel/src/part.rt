//! A part of a line, or a line of a text.
ghost use Rattle.std.specs.Prelude.{◌≡◌};
ghost use Rattle.gaxtrel.specs.Calls.{Tells, part_at};

use re_search::Span;

/// A part of a line, or a line of a text: from its first byte to the byte after its last.
#[repr(C)]
#[derive(Clone, Copy, Drop)]
pub struct GaxtrelPart {
    /// The place of its first byte.
    pub start: usize,
    /// The place after its last byte.
    pub end: usize,
}

/// The part that a span is.
pub(crate) fn part_of(span: Span) -> GaxtrelPart
    ensures { result ≡ part_at span }
{
    GaxtrelPart {
        start: span.start,
        end: span.end,
    }
}

/// Writes the place that was found: 1 if there is one, 0 if not.
pub(crate) fn put_found(found: Option<Span>, part: &mut GaxtrelPart) -> u32
    ensures tells { Tells result part.new found }
    ensures none { (result ≡ 1 → ⊥) → part.new ≡ part.old }
{
    match found {
        Some(span) => {
            *part = part_of(span);
            1
        }
        None => 0,
    }
}
