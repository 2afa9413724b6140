//! Extended regular expressions (XBD 9.4), and their tokens.
ghost use Rattle.std.specs.Prelude.{MatchBool, ◌<◌, drop, MatchOption, IfOk, ◌≡◌, length, IfErr};
ghost use Rattle.std.specs.Prelude.{[], ◌≤◌, IsTrue, Bool, codes, ◌∷◌};
ghost use Rattle.re_syntax.specs.{Faults.IsAt, declared.syntax.Syntax.TheVariants.Extended};
ghost use Rattle.re_syntax.specs.ExtendedTokens.{OpensDuplication, Duplication, ExtendedTokenFault};
ghost use Rattle.re_syntax.specs.{Escapes.is_in, Working.TokenSteps.{token_of, Stands, byte_token}};
ghost use Rattle.{re_syntax.specs.Working.DuplicationSteps.HasOne, re_trees.specs.Bytes.Begins};

use crate::ahead::{after, byte_at};
use crate::bracket::atom_at;
use crate::escape::read_escape;
use crate::fault::{FaultKind, PatternFault};
use crate::interval::{Counts, counts_fault, read_interval};
use crate::profile::EXTENDED_REFUSED;
use crate::tokens::{Atom, ItemPlace, Token, follows_item, meant_by};
use re_trees::ByteSet;

/// How often a byte repeats the item before it, where it is a duplication alone.
fn sign_counts(byte: u8) -> Option<Counts>
    ensures { MatchOption result (¬ IsTrue (is_in (codes "*+?") byte))
        (λ counts. Duplication (byte ∷ []) counts.least counts.most) }
{
    match byte {
        b'*' => Some(Counts {
            least: 0,
            most: None,
        }),
        b'+' => Some(Counts {
            least: 1,
            most: None,
        }),
        b'?' => Some(Counts {
            least: 0,
            most: Some(1),
        }),
        _ => None,
    }
}

/// The duplication at a place of the text, if there is one, and the place after it. A `{` that
/// begins no text of an interval's form is none.
fn read_duplication(text: &[u8], at: usize) -> Result<Option<(Counts, usize)>, PatternFault>
    requires { at ≤ length text.now }
    ensures read { IfOk result
        (λ found.
        MatchOption found (¬ OpensDuplication (drop at text.now))
        (λ d. HasOne Duplication text.now at d.0 d.1)) }
    ensures opens { IfErr result (λ _. OpensDuplication (drop at text.now)) }
    ensures refused { IfErr result
        (IsAt (ExtendedTokenFault ItemPlace.Later (drop at text.now)) text.now) }
{
    let sign = match byte_at(text, at) {
        None => return Ok(None),
        Some(byte) => sign_counts(byte),
    };
    if let Some(counts) = sign {
        return Ok(Some((counts, at + 1)));
    }
    match after(text, at, b"{") {
        None => Ok(None),
        Some(inside) => match read_interval(text, inside, b"}") {
            None => Ok(None),
            Some((counts, beyond)) => match counts_fault(counts) {
                Some(kind) => Err(PatternFault { kind, at }),
                None => Ok(Some((counts, beyond))),
            },
        },
    }
}

/// Whether a duplication begins at a place, or an interval whose numbers are refused.
fn opens_duplication(text: &[u8], at: usize) -> bool
    requires { at ≤ length text.now }
    ensures { MatchBool result (OpensDuplication (drop at text.now))
        (¬ OpensDuplication (drop at text.now)) }
{
    match read_duplication(text, at) {
        Ok(found) => found.is_some(),
        Err(_) => true,
    }
}

/// The duplication at a place, if one is there and an item before it.
fn read_times(
    text: &[u8],
    at: usize,
    place: ItemPlace,
) -> Result<Option<(Counts, usize)>, PatternFault>
    requires { at ≤ length text.now }
    ensures read { IfOk result
        (λ found.
        MatchOption found (¬ OpensDuplication (drop at text.now))
        (λ d. (place ≡ ItemPlace.Later) × HasOne Duplication text.now at d.0 d.1)) }
    ensures refused { IfErr result
        (IsAt (ExtendedTokenFault place (drop at text.now)) text.now) }
{
    if !follows_item(place) {
        if opens_duplication(text, at) {
            return Err(PatternFault {
                kind: FaultKind::NothingToRepeat,
                at,
            });
        }
        return Ok(None);
    }
    let found = read_duplication(text, at)?;
    Ok(found)
}

/// The escaped byte whose backslash is at a place.
fn escape_token(text: &[u8], at: usize) -> Result<(Token, usize), PatternFault>
    requires { Begins (codes "\\") (drop at text.now) }
    ensures read { IfOk result
        (λ found. (g : Bool) (p : ItemPlace) → Stands Extended g p text.now at found.0 found.1) }
    ensures refused { IfErr result
        (λ fault. (p : ItemPlace) → IsAt (ExtendedTokenFault p (drop at text.now)) text.now fault) }
{
    let byte = read_escape(text, at, EXTENDED_REFUSED)?;
    Ok((Token::Atom(Atom::Set(ByteSet::only(byte))), at + 2))
}

/// The token of a byte that begins no other token.
fn single_token(byte: u8, in_group: bool) -> Token
    ensures { token_of result ≡ byte_token in_group byte }
{
    if in_group & (byte == b')') {
        return Token::Closing;
    }
    Token::Atom(Atom::Set(meant_by(byte)))
}

/// The token at a place of an extended expression, and the place after it.
pub fn extended_token(
    text: &[u8],
    at: usize,
    place: ItemPlace,
    in_group: bool,
) -> Result<(Token, usize), PatternFault>
    requires { at < length text.now }
    ensures read { IfOk result
        (λ found. Stands Extended in_group place text.now at found.0 found.1) }
    ensures refused { IfErr result
        (IsAt (ExtendedTokenFault place (drop at text.now)) text.now) }
{
    if let Some((counts, beyond)) = read_times(text, at, place)? {
        return Ok((Token::Times(counts), beyond));
    }
    match text[at] {
        b'(' => Ok((Token::Opening, at + 1)),
        b'|' => Ok((Token::Bar, at + 1)),
        b'^' => Ok((Token::Lead, at + 1)),
        b'$' => Ok((Token::Atom(Atom::End), at + 1)),
        b'[' => {
            let (atom, beyond) = atom_at(text, at)?;
            Ok((Token::Atom(atom), beyond))
        }
        b'\\' => escape_token(text, at),
        byte => Ok((single_token(byte, in_group), at + 1)),
    }
}
