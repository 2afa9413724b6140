//! Basic regular expressions (XBD 9.3), with GNU grep's `\+`, `\?` and `\|`, and their tokens.
ghost use Rattle.std.specs.Prelude.{codes, length, Bool, ◌≤◌, drop, MatchBool, ◌<◌, MatchOption};
ghost use Rattle.std.specs.Prelude.{IfErr, IfOk, ◌≡◌};
ghost use Rattle.{re_trees.specs.Bytes.Begins, re_syntax.specs.Working.Ahead.IsAfter};
ghost use Rattle.re_syntax.specs.Working.BasicSteps.{ComesAfterTail, HasNoTimes, HasNoTail};
ghost use Rattle.re_syntax.specs.Working.{DuplicationSteps.HasOne, TokenSteps.Stands};
ghost use Rattle.re_syntax.specs.{Faults.IsAt, declared.syntax.Syntax.TheVariants.Basic};
ghost use Rattle.re_syntax.specs.BasicTokens.{IsAtEnd, Duplication, NeedsItem, BasicTokenFault};

use self::duplications::{needs_item, read_duplication};
use crate::ahead::after;
use crate::bracket::atom_at;
use crate::escape::read_escape;
use crate::fault::{FaultKind, PatternFault};
use crate::interval::Counts;
use crate::profile::BASIC_REFUSED;
use crate::tokens::{Atom, ItemPlace, Token, follows_item, meant_by};
use re_trees::ByteSet;

/// Whether a branch ends at a place: the text ends, a group is closed, or another branch begins.
fn is_at_end(text: &[u8], at: usize) -> bool
    requires { at ≤ length text.now }
    ensures { MatchBool result (IsAtEnd (drop at text.now)) (¬ IsAtEnd (drop at text.now)) }
{
    if at == text.len() {
        return true;
    }
    if after(text, at, b"\\|").is_some() {
        return true;
    }
    after(text, at, b"\\)").is_some()
}

/// The place after a `$` that ends its branch.
fn after_tail(text: &[u8], at: usize) -> Option<usize>
    requires { at ≤ length text.now }
    ensures { MatchOption result (HasNoTail (drop at text.now)) (ComesAfterTail text.now at) }
{
    let beyond = after(text, at, b"$")?;
    if is_at_end(text, beyond) {
        Some(beyond)
    } else {
        None
    }
}

/// The duplication at a place, if one is there and an item before it.
fn read_times(
    text: &[u8],
    at: usize,
    place: ItemPlace,
) -> Result<Option<(Counts, usize)>, PatternFault>
    requires { at ≤ length text.now }
    ensures read { IfOk result
        (λ found.
        MatchOption found (HasNoTimes place (drop at text.now))
        (λ d. (place ≡ ItemPlace.Later) × HasOne Duplication text.now at d.0 d.1)) }
    ensures refused { IfErr result
        (λ fault. (g : Bool) →
        IsAt (BasicTokenFault g place (drop at text.now)) text.now fault) }
{
    if !follows_item(place) {
        if needs_item(text, at) {
            return Err(PatternFault {
                kind: FaultKind::NothingToRepeat,
                at,
            });
        }
        return Ok(None);
    }
    let found = read_duplication(text, at)?;
    Ok(found)
}

/// The place after a `^` that is first in its branch.
fn after_lead(text: &[u8], at: usize, place: ItemPlace) -> Option<usize>
    requires { at ≤ length text.now }
    ensures { MatchOption result
        (place ≡ ItemPlace.First → ¬ Begins (codes "^") (drop at text.now))
        (λ beyond. (place ≡ ItemPlace.First) × IsAfter (codes "^") text.now at beyond) }
{
    match place {
        ItemPlace::First => {
            let beyond = after(text, at, b"^")?;
            Some(beyond)
        }
        ItemPlace::AfterAnchor => None,
        ItemPlace::Later => None,
    }
}

/// The token whose backslash is at a place where no duplication is.
fn escape_token(text: &[u8], at: usize, in_group: bool) -> Result<(Token, usize), PatternFault>
    requires within { at ≤ length text.now }
    requires begins { Begins (codes "\\") (drop at text.now) }
    requires no_need { ¬ NeedsItem (drop at text.now) }
    ensures read { IfOk result
        (λ found. (p : ItemPlace) → Stands Basic in_group p text.now at found.0 found.1) }
    ensures refused { IfErr result
        (λ fault. (p : ItemPlace) →
        IsAt (BasicTokenFault in_group p (drop at text.now)) text.now fault) }
{
    if let Some(beyond) = after(text, at, b"\\(") {
        return Ok((Token::Opening, beyond));
    }
    if let Some(beyond) = after(text, at, b"\\|") {
        return Ok((Token::Bar, beyond));
    }
    if let Some(beyond) = after(text, at, b"\\)") {
        if in_group {
            return Ok((Token::Closing, beyond));
        }
        return Err(PatternFault {
            kind: FaultKind::UnopenedGroup,
            at,
        });
    }
    let byte = read_escape(text, at, BASIC_REFUSED)?;
    Ok((Token::Atom(Atom::Set(ByteSet::only(byte))), at + 2))
}

/// The token at a place of a basic expression, and the place after it.
pub fn basic_token(
    text: &[u8],
    at: usize,
    place: ItemPlace,
    in_group: bool,
) -> Result<(Token, usize), PatternFault>
    requires { at < length text.now }
    ensures read { IfOk result (λ found. Stands Basic in_group place text.now at found.0 found.1) }
    ensures refused { IfErr result
        (IsAt (BasicTokenFault in_group place (drop at text.now)) text.now) }
{
    if let Some((counts, beyond)) = read_times(text, at, place)? {
        return Ok((Token::Times(counts), beyond));
    }
    if let Some(beyond) = after_tail(text, at) {
        return Ok((Token::Atom(Atom::End), beyond));
    }
    if let Some(beyond) = after_lead(text, at, place) {
        return Ok((Token::Lead, beyond));
    }
    match text[at] {
        b'[' => {
            let (atom, beyond) = atom_at(text, at)?;
            Ok((Token::Atom(atom), beyond))
        }
        b'\\' => escape_token(text, at, in_group),
        byte => Ok((Token::Atom(Atom::Set(meant_by(byte))), at + 1)),
    }
}

mod duplications;
