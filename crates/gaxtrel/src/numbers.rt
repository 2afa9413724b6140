//! The numbers by which C names syntaxes, faults, answers and ends.
ghost use Rattle.std.specs.Prelude.{MatchOption, IfErr, ◌≡◌, IfOk, length};
ghost use Rattle.{re_syntax.specs.declared.syntax.Syntax.Syntax, gaxtrel.specs.Live.end_number};
ghost use Rattle.gaxtrel.specs.{Made.too_many, Calls.{Says, kind_number, SaysOf, syntax_number}};

use grep_cmd::{ScriptEnd, ScriptFault};
use re_search::Syntax;
use re_syntax::{FaultKind, PatternFault};

/// The answer to a call for what is not held.
pub(crate) const MISUSED: u32 = 3;

/// The answer to a call that reached its limit.
pub(crate) const STOPPED: u32 = 5;

/// Why a pattern is refused, and where.
#[repr(C)]
#[derive(Clone, Copy, Drop)]
pub struct GaxtrelFault {
    /// The number of the kind.
    pub kind: u32,
    /// The place in the pattern.
    pub at: usize,
    /// The number of the pattern, counted from 0.
    pub pattern: usize,
}

/// The fault of more patterns than there may be: the first of them that is too many.
pub(crate) fn too_many(most: usize) -> GaxtrelFault
    ensures { result ≡ too_many most }
{
    GaxtrelFault {
        kind: 15,
        at: 0,
        pattern: most,
    }
}

/// The fault of a pattern.
pub(crate) fn fault_of(pattern: usize, fault: PatternFault) -> GaxtrelFault
    ensures kind { result.kind ≡ kind_number fault.kind }
    ensures at { result.at ≡ fault.at }
    ensures pattern { result.pattern ≡ pattern }
{
    GaxtrelFault {
        kind: number_of(fault.kind),
        at: fault.at,
        pattern,
    }
}

/// The syntax of a number.
pub(crate) fn syntax_of(number: u32) -> Option<Syntax>
    ensures { MatchOption result ((syntax : Syntax) → number ≡ syntax_number syntax → ⊥)
        (λ syntax. number ≡ syntax_number syntax) }
{
    match number {
        0 => Some(Syntax::Basic),
        1 => Some(Syntax::Extended),
        2 => Some(Syntax::Fixed),
        _ => None,
    }
}

/// The number of a kind of fault. Memory that is refused is no fault of a pattern.
fn number_of(kind: FaultKind) -> u32
    ensures { result ≡ kind_number kind }
{
    match kind {
        FaultKind::UnclosedBracket => 1,
        FaultKind::BadClass => 2,
        FaultKind::BadCollatingSymbol => 3,
        FaultKind::BadRange => 4,
        FaultKind::UnclosedGroup => 5,
        FaultKind::UnopenedGroup => 6,
        FaultKind::BadInterval => 7,
        FaultKind::IntervalTooLarge => 8,
        FaultKind::NothingToRepeat => 9,
        FaultKind::TrailingBackslash => 10,
        FaultKind::UndefinedEscape => 11,
        FaultKind::BackReference => 12,
        FaultKind::TooDeep => 13,
        FaultKind::TooLarge => 14,
        FaultKind::Memory => 0,
    }
}

/// The answer of a search that found so many in what it searched, up to an end, of a text.
pub(crate) fn answer_for(count: u64, end: usize, text: &[u8]) -> u32
    ensures { SaysOf result count end (length text.now) }
{
    if end < text.len() {
        return STOPPED;
    }
    some(count)
}

/// 1 if there are some, 0 if there are none.
pub(crate) fn some(count: u64) -> u32
    ensures { Says result count }
{
    (count > 0) as u32
}

/// The number of how the commands of a text were answered.
pub(crate) fn number_of_end(ended: Result<ScriptEnd, ScriptFault>) -> u32
    ensures answered { IfOk ended (λ end. result ≡ end_number end) }
    ensures short { IfErr ended (λ _. result ≡ 2) }
{
    match ended {
        Ok(ScriptEnd::Clean) => 0,
        Ok(ScriptEnd::Refused) => 1,
        Err(_) => 2,
    }
}
