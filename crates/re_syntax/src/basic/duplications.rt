//! Duplications of basic expressions (XBD 9.3.6), with GNU grep's `\+` and `\?`.
ghost use Rattle.std.specs.Prelude.{Bool, ◌≤◌, IfOk, IfErr, MatchOption, MatchBool, length, drop};
ghost use Rattle.re_syntax.specs.BasicTokens.{Duplication, NeedsItem, BasicTokenFault};
ghost use Rattle.re_syntax.specs.{declared.tokens.ItemPlace.ItemPlace, Faults.IsAt};
ghost use Rattle.re_syntax.specs.Working.BasicSteps.{HasNoSign, OpensNoDuplication};
ghost use Rattle.re_syntax.specs.Working.DuplicationSteps.{HasOne};

use crate::ahead::after;
use crate::fault::{FaultKind, PatternFault};
use crate::interval::{Counts, counts_fault, read_interval};

/// The duplication without numbers at a place, if there is one, and the place after it.
fn read_sign(text: &[u8], at: usize) -> Option<(Counts, usize)>
    requires { at ≤ length text.now }
    ensures { MatchOption result (HasNoSign (drop at text.now))
        (λ d. HasOne Duplication text.now at d.0 d.1) }
{
    if let Some(beyond) = after(text, at, b"*") {
        let (least, most) = (0, None);
        return Some((Counts { least, most }, beyond));
    }
    if let Some(beyond) = after(text, at, b"\\+") {
        let (least, most) = (1, None);
        return Some((Counts { least, most }, beyond));
    }
    let beyond = after(text, at, b"\\?")?;
    let (least, most) = (0, Some(1));
    Some((Counts { least, most }, beyond))
}

/// The duplication at a place of the text, if there is one, and the place after it.
pub fn read_duplication(text: &[u8], at: usize) -> Result<Option<(Counts, usize)>, PatternFault>
    requires { at ≤ length text.now }
    ensures read { IfOk result (λ found. MatchOption found (OpensNoDuplication (drop at text.now))
        (λ d. HasOne Duplication text.now at d.0 d.1)) }
    ensures refused { IfErr result
        (λ fault. (g : Bool) →
        IsAt (BasicTokenFault g ItemPlace.Later (drop at text.now)) text.now fault) }
{
    if let Some(sign) = read_sign(text, at) {
        return Ok(Some(sign));
    }
    match after(text, at, b"\\{") {
        None => Ok(None),
        Some(inside) => match read_interval(text, inside, b"\\}") {
            None => Err(PatternFault {
                kind: FaultKind::BadInterval,
                at,
            }),
            Some((counts, beyond)) => match counts_fault(counts) {
                Some(kind) => Err(PatternFault { kind, at }),
                None => Ok(Some((counts, beyond))),
            },
        },
    }
}

/// Whether a duplication begins at a place that never stands for its own bytes: `\{`, `\+` or `\?`.
pub fn needs_item(text: &[u8], at: usize) -> bool
    requires { at ≤ length text.now }
    ensures { MatchBool result (NeedsItem (drop at text.now)) (¬ NeedsItem (drop at text.now)) }
{
    if after(text, at, b"\\{").is_some() {
        return true;
    }
    if after(text, at, b"\\+").is_some() {
        return true;
    }
    after(text, at, b"\\?").is_some()
}
