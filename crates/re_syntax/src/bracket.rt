//! Bracket expressions (XBD 9.3.5), read in one pass from left to right.
ghost use Rattle.std.specs.Prelude.{◌≡◌, ◌≢◌, ℕ, ◌≤◌, ◌++◌, ◌∷◌, Some, IfSome, IfNone, IfOk, IfErr};
ghost use Rattle.std.specs.Prelude.{OnOk, MatchOption, MatchBool, codes, slice_get, drop};
ghost use Rattle.re_trees.specs.{Working.Trees.members, Bytes.{Begins, class_name}};
ghost use Rattle.re_syntax.specs.{Brackets.{Rest, IsBracket, Element, Point}, Faults.IsAt};
ghost use Rattle.re_syntax.specs.Working.BracketSteps.{PassesHyphen, IsBracketUpTo, IsIn, MayGoOn};
ghost use Rattle.re_syntax.specs.Working.BracketSteps.{Fails, from_place, OpensNoClass, IsStray};
ghost use Rattle.re_syntax.specs.Working.{BracketSteps.IsHyphenBefore, Cursors.{left, Passes}};
ghost use Rattle.re_syntax.specs.{Working.TokenSteps.atom_expression, BracketFaults.PointFault};
ghost use Rattle.re_syntax.specs.BracketFaults.{ListFault, BracketFault, RangeFault, ElementFault};

use crate::cursor::Cursor;
use crate::fault::{FaultKind, PatternFault};
use crate::tokens::Atom;
use re_trees::{ByteSet, Class};

/// Where an element is in the list of a bracket expression.
#[derive(Clone, Copy, PartialEq, Eq, Debug, Drop)]
pub enum ListPlace {
    /// It is the first.
    First,
    /// It follows a single point.
    AfterPoint,
    /// It follows a range, a class or an equivalence class.
    AfterRange,
}

/// One byte, and the pair that closes its collating symbol or equivalence class.
fn take_closed_byte(cursor: &mut Cursor, closing: &[u8]) -> Option<u8>
    ensures { MatchOption result ((b : ℕ) → ¬ Begins (b ∷ closing.now) (left cursor.old))
        (λ b. Passes (b ∷ closing.now) cursor.old cursor.new) }
{
    let byte = cursor.take()?;
    if cursor.skip(closing) {
        Some(byte)
    } else {
        None
    }
}

/// The class whose name and `:]` come next.
fn take_class(cursor: &mut Cursor) -> Option<Class>
    ensures { MatchOption result
        ((c : Class) → ¬ Begins (class_name c ++ codes ":]") (left cursor.old))
        (λ c. Passes (class_name c ++ codes ":]") cursor.old cursor.new) }
{
    for class in Class::ALL {
        if cursor.skip(class.closed_name()) {
            return Some(class);
        }
    }
    None
}

/// A byte for itself, or a collating symbol of one byte. At the text's end the bracket expression
/// whose `[` is at `opening` is unclosed.
fn read_point(cursor: &mut Cursor, opening: usize) -> Result<u8, PatternFault>
    requires opened { IsIn opening cursor.old }
    requires no_class { OpensNoClass (left cursor.old) }
    ensures read { IfOk result (Point (left cursor.old) (left cursor.new)) }
    ensures refused { IfErr result
        (Fails (PointFault (from_place opening cursor.old) (left cursor.old)) cursor.old) }
    ensures same_text { OnOk result (cursor.new.text ≡ cursor.old.text) }
{
    let from = cursor.place();
    if cursor.skip(b"[.") {
        return match take_closed_byte(cursor, b".]") {
            Some(byte) => Ok(byte),
            None => Err(PatternFault {
                kind: FaultKind::BadCollatingSymbol,
                at: from,
            }),
        };
    }
    match cursor.take() {
        Some(byte) => Ok(byte),
        None => Err(PatternFault {
            kind: FaultKind::UnclosedBracket,
            at: opening,
        }),
    }
}

/// The point that ends a range from the byte `first`, after the hyphen at `hyphen`.
fn read_range_end(
    cursor: &mut Cursor,
    first: u8,
    hyphen: usize,
    opening: usize,
) -> Result<u8, PatternFault>
    requires opened { IsIn opening cursor.old }
    requires hyphen_before { IsHyphenBefore hyphen cursor.old }
    ensures read { IfOk result (Point (left cursor.old) (left cursor.new)) }
    ensures ascends { IfOk result (λ last. first ≤ last) }
    ensures refused { IfErr result
        (Fails (RangeFault (from_place opening cursor.old) first (left cursor.old)) cursor.old) }
    ensures same_text { OnOk result (cursor.new.text ≡ cursor.old.text) }
{
    let bad_range = PatternFault {
        kind: FaultKind::BadRange,
        at: hyphen,
    };
    if cursor.skip(b"[:") {
        return Err(bad_range);
    }
    if cursor.skip(b"[=") {
        return Err(bad_range);
    }
    let last = read_point(cursor, opening)?;
    if last < first {
        return Err(bad_range);
    }
    Ok(last)
}

/// Whether the next point may begin a range: a hyphen may only as the first of its list.
fn may_begin_range(cursor: &Cursor, place: ListPlace) -> bool
    ensures { MatchBool result (Begins (codes "-") (left cursor.now) → place ≡ ListPlace.First)
        (Begins (codes "-") (left cursor.now) × (place ≢ ListPlace.First)) }
{
    match place {
        ListPlace::First => true,
        ListPlace::AfterPoint | ListPlace::AfterRange => cursor.peek() != Some(b'-'),
    }
}

/// Skips a hyphen that is not the last of its list, and returns its place.
fn skip_hyphen(cursor: &mut Cursor) -> Option<usize>
    ensures found { IfSome result (PassesHyphen cursor.old cursor.new) }
    ensures none { IfNone result
        ((cursor.new ≡ cursor.old) ×
        (Begins (codes "-") (left cursor.old) → Begins (codes "-]") (left cursor.old))) }
{
    let hyphen = cursor.place();
    let mut beyond = *cursor;
    if !beyond.skip(b"-") || beyond.peek() == Some(b']') {
        return None;
    }
    *cursor = beyond;
    Some(hyphen)
}

/// The fault of a hyphen that may not begin a range, where another follows that is not the last.
/// Either the text ends after the two, or the second, at `hyphen`, is not allowed.
fn stray_hyphen(cursor: &Cursor, hyphen: usize, opening: usize) -> PatternFault
    requires opened { IsIn opening cursor.now }
    requires hyphen_before { IsHyphenBefore hyphen cursor.now }
    ensures { IsStray opening cursor.now result }
{
    match cursor.peek() {
        Some(_) => PatternFault {
            kind: FaultKind::BadRange,
            at: hyphen,
        },
        None => PatternFault {
            kind: FaultKind::UnclosedBracket,
            at: opening,
        },
    }
}

/// A point alone, or a range of two points.
fn read_point_or_range(
    cursor: &mut Cursor,
    place: ListPlace,
    opening: usize,
) -> Result<(ByteSet, ListPlace), PatternFault>
    requires opened { IsIn opening cursor.old }
    requires no_class { OpensNoClass (left cursor.old) }
    requires goes_on { MayGoOn place (left cursor.old) }
    ensures read { IfOk result
        (λ found. Element place (left cursor.old) (left cursor.new) (members found.0) found.1) }
    ensures refused { IfErr result
        (Fails (ElementFault (from_place opening cursor.old) place (left cursor.old)) cursor.old) }
    ensures same_text { OnOk result (cursor.new.text ≡ cursor.old.text) }
{
    let may_begin = may_begin_range(cursor, place);
    let first = read_point(cursor, opening)?;
    match skip_hyphen(cursor) {
        None => Ok((ByteSet::only(first), ListPlace::AfterPoint)),
        Some(hyphen) => {
            if !may_begin {
                return Err(stray_hyphen(cursor, hyphen, opening));
            }
            let last = read_range_end(cursor, first, hyphen, opening)?;
            Ok((ByteSet::range(first, last), ListPlace::AfterRange))
        }
    }
}

/// An element at a place of its list: the bytes that it adds, and the place after it.
fn read_element(
    cursor: &mut Cursor,
    place: ListPlace,
    opening: usize,
) -> Result<(ByteSet, ListPlace), PatternFault>
    requires opened { IsIn opening cursor.old }
    requires goes_on { MayGoOn place (left cursor.old) }
    ensures read { IfOk result
        (λ found. Element place (left cursor.old) (left cursor.new) (members found.0) found.1) }
    ensures refused { IfErr result
        (Fails (ElementFault (from_place opening cursor.old) place (left cursor.old)) cursor.old) }
    ensures same_text { OnOk result (cursor.new.text ≡ cursor.old.text) }
{
    let from = cursor.place();
    if cursor.skip(b"[:") {
        return match take_class(cursor) {
            Some(class) => Ok((ByteSet::class(class), ListPlace::AfterRange)),
            None => Err(PatternFault {
                kind: FaultKind::BadClass,
                at: from,
            }),
        };
    }
    if cursor.skip(b"[=") {
        return match take_closed_byte(cursor, b"=]") {
            Some(byte) => Ok((ByteSet::only(byte), ListPlace::AfterRange)),
            None => Err(PatternFault {
                kind: FaultKind::BadCollatingSymbol,
                at: from,
            }),
        };
    }
    read_point_or_range(cursor, place, opening)
}

/// The bytes that the elements of a list add, up to the `]` that closes it.
fn read_list(cursor: &mut Cursor, opening: usize) -> Result<ByteSet, PatternFault>
    requires opened { IsIn opening cursor.old }
    ensures read { IfOk result
        (λ set. Rest ListPlace.First (left cursor.old) (left cursor.new) (members set)) }
    ensures refused { IfErr result
        (Fails (ListFault (from_place opening cursor.old) ListPlace.First (left cursor.old))
        cursor.old) }
    ensures same_text { OnOk result (cursor.new.text ≡ cursor.old.text) }
{
    let (mut set, mut place) = read_element(cursor, ListPlace::First, opening)?;
    while !cursor.skip(b"]") {
        let (bytes, next) = read_element(cursor, place, opening)?;
        set = set.union(bytes);
        place = next;
    }
    Ok(set)
}

/// The bracket expression that comes next: a `Set` of the bytes that its list adds, or after a
/// caret a `Not` of them.
fn read_next_bracket(cursor: &mut Cursor) -> Result<Atom, PatternFault>
    requires { Begins (codes "[") (left cursor.old) }
    ensures read { IfOk result
        (λ atom. IsBracket (left cursor.old) (left cursor.new) (atom_expression atom)) }
    ensures refused { IfErr result (Fails (BracketFault (left cursor.old)) cursor.old) }
    ensures same_text { OnOk result (cursor.new.text ≡ cursor.old.text) }
{
    let opening = cursor.place();
    if cursor.skip(b"[^") {
        let set = read_list(cursor, opening)?;
        return Ok(Atom::Not(set));
    }
    cursor.skip(b"[");
    let set = read_list(cursor, opening)?;
    Ok(Atom::Set(set))
}

/// The bracket expression whose `[` is at `from`, and the place after its `]`.
///
/// # Errors
///
/// Where no bracket expression is there, its fault: `BadClass`, `BadCollatingSymbol` or `BadRange`,
/// or `UnclosedBracket` where the text ends first. A `[:`, `[=` or `[.` that the text's end cuts off
/// is no unclosed bracket but a bad class or collating symbol. As the end of a range, a `[:` or `[=`
/// is a bad range.
pub fn atom_at(text: &[u8], from: usize) -> Result<(Atom, usize), PatternFault>
    requires { slice_get text.now from ≡ Some 91 }
    ensures read { IfOk result
        (λ found. IsBracketUpTo text.now from found.1 (atom_expression found.0)) }
    ensures refused { IfErr result (IsAt (BracketFault (drop from text.now)) text.now) }
{
    let mut cursor = Cursor::new(text, from);
    let atom = read_next_bracket(&mut cursor)?;
    Ok((atom, cursor.place()))
}
