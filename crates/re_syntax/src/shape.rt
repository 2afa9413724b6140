//! What is known at a place of a text, in numbers alone: how deep its groups and duplications are,
//! and how many positions it has.
ghost use Rattle.std.specs.Prelude.{◌≡◌, ◌+◌, IfOk, IfErr};
ghost use Rattle.re_trees.specs.{Bytes.Text, Holds.copies};
ghost use Rattle.re_syntax.specs.Working.{ShapeSteps.{Ends, EndsOpen, Refuses}, Counted.up_to_word};
ghost use Rattle.re_syntax.specs.Working.{Builds.nothing_built, TokenSteps.token_of};
ghost use Rattle.re_syntax.specs.{Tokens.{closing, opening, times}, FirstFaults.start};
ghost use Rattle.re_syntax.specs.Working.ShapeSteps.{Shows, Counts as HasCounts, IsBounded, Takes};

use crate::fault::{FaultKind, PatternFault};
use crate::interval::Counts;
use crate::profile::MOST_LEVELS;
use crate::tokens::{ItemPlace, Token, positions_of};
use arrayvec::ArrayVec;

/// A group that is open.
#[derive(Clone, Copy, Default, Drop)]
pub struct OpenGroup {
    /// The place of its first byte.
    pub opening: usize,
    /// The greatest height of the items before it in the expression around it.
    pub height: usize,
    /// The number of positions before it in that expression.
    pub positions: usize,
}

/// What is known at a place of a text. Numbers of positions are the greatest `usize` where there
/// are more.
#[derive(Drop)]
pub struct Shape {
    /// Where in its branch the place is.
    pub place: ItemPlace,
    /// The height of the item that ends there.
    pub last: usize,
    /// The greatest height of the items of the innermost expression.
    pub height: usize,
    /// The number of positions of that expression without its last item.
    pub before: usize,
    /// The number of positions of its last item.
    pub item: usize,
    /// The groups that are open, the outermost first. A list in place of a recursion, which would
    /// take stack.
    pub groups: ArrayVec<OpenGroup, MOST_LEVELS>,
}

/// What is known at a text's start.
pub fn at_start() -> Shape
    ensures shows { (text : Text) → Shows text result start }
    ensures counts { HasCounts result nothing_built }
{
    Shape {
        place: ItemPlace::First,
        last: 0,
        height: 0,
        before: 0,
        item: 0,
        groups: ArrayVec::new(),
    }
}

/// The fault of one level too many.
fn too_deep(at: usize) -> PatternFault
    ensures { result ≡ record { kind = FaultKind.TooDeep; at = at } }
{
    PatternFault {
        kind: FaultKind::TooDeep,
        at,
    }
}

/// The number of positions of the innermost expression.
fn positions(shape: &Shape) -> usize
    ensures { result ≡ up_to_word (shape.now.before + shape.now.item) }
{
    shape.before.saturating_add(shape.item)
}

/// Opens a group.
fn open_group(shape: &mut Shape, at: usize) -> Result<(), PatternFault>
    ensures read { IfOk result (λ _. Takes opening at shape.old shape.new) }
    ensures refused { IfErr result (Refuses opening at shape.old) }
{
    if shape.groups.len() == MOST_LEVELS {
        return Err(too_deep(at));
    }
    let positions = positions(shape);
    shape.groups.push(OpenGroup {
        opening: at,
        height: shape.height,
        positions,
    });
    shape.place = ItemPlace::First;
    shape.last = 0;
    shape.height = 0;
    shape.before = 0;
    shape.item = 0;
    Ok(())
}

/// Closes a group, if one is open.
fn close_group(shape: &mut Shape, _at: usize)
    requires { IsBounded shape.old }
    ensures { Takes closing _at shape.old shape.new }
{
    let positions = positions(shape);
    let Some(group) = shape.groups.pop() else {
        return;
    };
    shape.place = ItemPlace::Later;
    shape.last = shape.height + 1;
    shape.height = group.height.max(shape.last);
    shape.before = group.positions;
    shape.item = positions;
}

/// How often a repeated part is written out: its greatest count, or where it has none its least
/// count, but at least once.
fn copies_of(counts: Counts) -> usize
    ensures { result ≡ copies counts.least counts.most }
{
    match counts.most {
        Some(most) => most as usize,
        None => counts.least.max(1) as usize,
    }
}

/// Repeats the last item.
fn repeat(shape: &mut Shape, counts: Counts, at: usize) -> Result<(), PatternFault>
    requires { IsBounded shape.old }
    ensures read { IfOk result
        (λ _. Takes (times counts.least counts.most) at shape.old shape.new) }
    ensures refused { IfErr result (Refuses (times counts.least counts.most) at shape.old) }
{
    if shape.last + shape.groups.len() >= MOST_LEVELS {
        return Err(too_deep(at));
    }
    shape.place = ItemPlace::Later;
    shape.last += 1;
    shape.height = shape.height.max(shape.last);
    shape.item = copies_of(counts).saturating_mul(shape.item);
    Ok(())
}

/// Goes on at a place of a branch, after a token of no height that has so many positions.
fn go_on(shape: &mut Shape, place: ItemPlace, item: usize)
    ensures { shape.new ≡ record shape.old {
      place = place;
      last = 0;
      before = up_to_word (shape.old.before + shape.old.item);
      item = item;
    } }
{
    shape.before = positions(shape);
    shape.item = item;
    shape.place = place;
    shape.last = 0;
}

/// Takes a token.
pub fn take(shape: &mut Shape, token: Token, at: usize) -> Result<(), PatternFault>
    requires { IsBounded shape.old }
    ensures read { IfOk result (λ _. Takes (token_of token) at shape.old shape.new) }
    ensures refused { IfErr result (Refuses (token_of token) at shape.old) }
{
    match token {
        Token::Opening => open_group(shape, at),
        Token::Closing => {
            close_group(shape, at);
            Ok(())
        }
        Token::Bar => {
            go_on(shape, ItemPlace::First, 0);
            Ok(())
        }
        Token::Lead => {
            go_on(shape, ItemPlace::AfterAnchor, 0);
            Ok(())
        }
        Token::Atom(atom) => {
            go_on(shape, ItemPlace::Later, positions_of(atom));
            Ok(())
        }
        Token::Times(counts) => repeat(shape, counts, at),
    }
}

/// The number of positions at the text's end, if no group is open there.
#[tactic(auto, using(crate::proofs::lemmas::ShapeLaws::ends_open))]
pub fn ended(shape: &mut Shape) -> Result<usize, PatternFault>
    ensures whole { IfOk result (Ends shape.old) }
    ensures refused { IfErr result (EndsOpen shape.old) }
{
    let positions = positions(shape);
    match shape.groups.pop() {
        None => Ok(positions),
        Some(group) => Err(PatternFault {
            kind: FaultKind::UnclosedGroup,
            at: group.opening,
        }),
    }
}
