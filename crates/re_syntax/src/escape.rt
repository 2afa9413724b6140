//! A backslash and the byte after it (XBD 9.3.3, 9.4.3), in basic and in extended expressions.
ghost use Rattle.std.specs.Prelude.{◌≡◌, IfOk, codes, IfErr, MatchOption, ◌∷◌, drop, IsTrue, ◌++◌};
ghost use Rattle.re_trees.specs.Bytes.{Text, Begins, in_class};
ghost use Rattle.re_syntax.specs.{Escapes.is_undefined, Faults.IsAt};
ghost use Rattle.re_syntax.specs.{Working.EscapeSteps.EscapeStands, EscapeFaults.EscapeFault};

use crate::ahead::byte_at;
use crate::fault::{FaultKind, PatternFault};
use re_trees::Class;

/// Whether a byte is a letter or a digit.
fn is_alphanumeric(byte: u8) -> bool
    ensures { result ≡ in_class Class.Alnum byte }
{
    let is_upper = (b'A' <= byte) & (byte <= b'Z');
    let is_lower = (b'a' <= byte) & (byte <= b'z');
    let is_digit = (b'0' <= byte) & (byte <= b'9');
    is_upper | is_lower | is_digit
}

/// The fault of a byte that may not follow a backslash: a letter, a digit or one of the others.
fn escape_fault(byte: u8, others: &[u8]) -> Option<FaultKind>
    ensures { MatchOption result (¬ IsTrue (is_undefined others.now byte))
        (λ kind. (u : Text) →
        EscapeFault others.now (codes "\\" ++ byte ∷ u) kind (codes "\\" ++ byte ∷ u)) }
{
    if (b'1' <= byte) & (byte <= b'9') {
        return Some(FaultKind::BackReference);
    }
    if is_alphanumeric(byte) | others.contains(&byte) {
        return Some(FaultKind::UndefinedEscape);
    }
    None
}

/// The byte after the backslash at a place. It stands for itself: it is no letter, no digit and
/// none of the others.
pub fn read_escape(text: &[u8], at: usize, others: &[u8]) -> Result<u8, PatternFault>
    requires { Begins (codes "\\") (drop at text.now) }
    ensures read { IfOk result (EscapeStands others.now text.now at) }
    ensures refused { IfErr result
        (IsAt (EscapeFault others.now (drop at text.now)) text.now) }
{
    match byte_at(text, at + 1) {
        None => Err(PatternFault {
            kind: FaultKind::TrailingBackslash,
            at,
        }),
        Some(byte) => match escape_fault(byte, others) {
            None => Ok(byte),
            Some(kind) => Err(PatternFault { kind, at }),
        },
    }
}
