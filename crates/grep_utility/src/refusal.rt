//! The line on a pattern that is refused (XCU grep, STDERR).
ghost use Rattle.std.specs.{Prelude.{◌≡◌, ◌++◌, []}, Fmt.decimal};
ghost use Rattle.grep_core.specs.{Row.output_line, Written.Writes};
ghost use Rattle.grep_utility.specs.Texts.{kind_name};

use grep_core::{CountedWrite, WriteFault, push_all, write_count, write_decimal};
use re_syntax::{FaultKind, PatternFault};

/// The name of a kind of refusal.
#[tactic(auto, unfolding(crate::specs::Texts::kind_name))]
pub fn kind_name(kind: FaultKind) -> &'static [u8]
    ensures { result.now ≡ kind_name kind }
{
    match kind {
        FaultKind::UnclosedBracket => b"UnclosedBracket",
        FaultKind::BadClass => b"BadClass",
        FaultKind::BadCollatingSymbol => b"BadCollatingSymbol",
        FaultKind::BadRange => b"BadRange",
        FaultKind::UnclosedGroup => b"UnclosedGroup",
        FaultKind::UnopenedGroup => b"UnopenedGroup",
        FaultKind::BadInterval => b"BadInterval",
        FaultKind::IntervalTooLarge => b"IntervalTooLarge",
        FaultKind::NothingToRepeat => b"NothingToRepeat",
        FaultKind::TrailingBackslash => b"TrailingBackslash",
        FaultKind::UndefinedEscape => b"UndefinedEscape",
        FaultKind::BackReference => b"BackReference",
        FaultKind::TooDeep => b"TooDeep",
        FaultKind::TooLarge => b"TooLarge",
        FaultKind::Memory => b"Memory",
    }
}

/// Writes a text and a number.
#[tactic(auto, using(grep_core::proofs::lemmas::RowLemmas::writing))]
fn write_number<W: CountedWrite>(out: &mut W, text: &[u8], number: u64) -> Result<(), WriteFault>
    ensures { Writes W.contents W.failures out.old out.new (text.now ++ decimal number) result }
{
    push_all(out, text)?;
    write_decimal(out, number)
}

/// Writes a text and the name of a kind of refusal.
#[tactic(auto, using(grep_core::proofs::lemmas::RowLemmas::writing))]
fn write_kind<W: CountedWrite>(out: &mut W, text: &[u8], kind: &[u8]) -> Result<(), WriteFault>
    ensures { Writes W.contents W.failures out.old out.new (text.now ++ kind.now) result }
{
    push_all(out, text)?;
    push_all(out, kind)
}

/// Writes which pattern is refused, after `front`, and the kind of refusal, after `before_kind`.
#[tactic(auto, using(grep_core::proofs::lemmas::RowLemmas::writing))]
fn write_number_and_kind<W: CountedWrite>(
    out: &mut W,
    front: &[u8],
    number: u64,
    before_kind: &[u8],
    kind: &[u8],
) -> Result<(), WriteFault>
    ensures { Writes W.contents W.failures out.old out.new
        ((front.now ++ decimal number) ++ (before_kind.now ++ kind.now)) result }
{
    write_number(out, front, number)?;
    write_kind(out, before_kind, kind)
}

/// Writes the line on a pattern that is refused: its number, the kind of refusal and the place in
/// the pattern, each after a text.
///
/// Returns `WriteFault` if a write fails. It is not tried again.
pub fn write_pattern_refused<W: CountedWrite>(
    out: &mut W,
    front: &[u8],
    number: u64,
    before_kind: &[u8],
    fault: PatternFault,
    before_place: &[u8],
) -> Result<(), WriteFault>
    ensures { Writes W.contents W.failures out.old out.new
        (output_line []
        (front.now ++ decimal number ++ before_kind.now ++ kind_name fault.kind ++ before_place.now ++
        decimal fault.at)) result }
{
    write_number_and_kind(out, front, number, before_kind, kind_name(fault.kind))?;
    write_count(out, before_place, None, fault.at as u64)
}
