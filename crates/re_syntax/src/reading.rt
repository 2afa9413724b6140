//! The one loop over the tokens of a text, in each syntax.
ghost use Rattle.std.specs.Prelude.{[], List, IfErr, ◌≡◌, drop, ◌++◌, ◌⊎◌, ◌∷◌, length, ◌<◌, IfOk};
ghost use Rattle.re_trees.specs.{Working.Trees.expression_of, Holds.positions};
ghost use Rattle.re_syntax.specs.FirstFaults.{IsFirstFault, IsTokenFault};
ghost use Rattle.re_syntax.specs.Working.{ShapeSteps.{IsBounded, Reaches}, Counted.HasPositions};
ghost use Rattle.re_syntax.specs.Working.{Counted.up_to_word, TokenSteps.{token_of, Stands}};
ghost use Rattle.re_syntax.specs.{Spelled.{IsSpelled, SpellsNoOther}, Faults.{IsAt, IsOutOfMemory}};
ghost use Rattle.re_syntax.specs.Tokens.{Token as Read};

use crate::basic::basic_token;
use crate::building::{Building, build, nothing, tree_of_level};
use crate::extended::extended_token;
use crate::fault::PatternFault;
use crate::shape::{Shape, at_start, ended, take};
use crate::syntax::Syntax;
use crate::tokens::{Atom, ItemPlace, Token};
use re_trees::{ByteSet, Tree};
use std::alloc::Global;

/// The token at a place, and the place after it.
fn token_at(
    syntax: Syntax,
    text: &[u8],
    at: usize,
    place: ItemPlace,
    in_group: bool,
) -> Result<(Token, usize), PatternFault>
    requires { at < length text.now }
    ensures read { IfOk result (λ found. Stands syntax in_group place text.now at found.0 found.1) }
    ensures refused { IfErr result
        (IsAt (IsTokenFault syntax in_group place (drop at text.now)) text.now) }
{
    match syntax {
        Syntax::Basic => basic_token(text, at, place, in_group),
        Syntax::Extended => extended_token(text, at, place, in_group),
        Syntax::Fixed => Ok((Token::Atom(Atom::Set(ByteSet::only(text[at]))), at + 1)),
    }
}

/// Reads the token at a place, and takes it.
fn next_token(
    shape: &mut Shape,
    syntax: Syntax,
    text: &[u8],
    at: usize,
) -> Result<(Token, usize), PatternFault>
    requires within { at < length text.now }
    requires bounded { IsBounded shape.old }
    ensures read { IfOk result
        (λ found. (done : List Read) → Reaches syntax text.now at shape.old done →
        Reaches syntax text.now found.1 shape.new (done ++ token_of found.0 ∷ [])) }
    ensures forward { IfOk result (λ found. at < found.1) }
    ensures refused { IfErr result
        (λ fault. (done : List Read) → Reaches syntax text.now at shape.old done →
        IsFirstFault syntax text.now fault) }
{
    let in_group = shape.groups.len() > 0;
    let (token, beyond) = token_at(syntax, text, at, shape.place, in_group)?;
    take(shape, token, at)?;
    Ok((token, beyond))
}

/// The number of positions of a text's expression, its intervals written out, or the greatest
/// `usize` where it has more. It allocates no memory.
///
/// # Errors
///
/// The text's first fault, where it is no expression.
pub fn count_positions(syntax: Syntax, text: &[u8]) -> Result<usize, PatternFault>
    ensures counted { IfOk result (HasPositions syntax text.now) }
    ensures refused { IfErr result (IsFirstFault syntax text.now) }
{
    let mut shape = at_start();
    let mut at = 0;
    'tokens: while at < text.len() {
        let (_, beyond) = next_token(&mut shape, syntax, text, at)?;
        at = beyond;
    }
    let count = ended(&mut shape)?;
    Ok(count)
}

/// The tree of a text's expression (XBD 9.3, 9.4; XCU grep, `-F`), and the number of its positions
/// as of [`count_positions`]. Its items are `Set`, `Not`, `Begin`, `End` and `Repeat`. A branch
/// without items is `Empty`, and one with several is a `Cat` of them in order. Several branches are
/// an `Alt` of them in order.
///
/// # Errors
///
/// Those of [`count_positions`], and `FaultKind::Memory` at 0.
pub fn read(alloc: Global, syntax: Syntax, text: &[u8]) -> Result<(Tree, usize), PatternFault>
    ensures read { IfOk result (λ found. IsSpelled syntax text.now (expression_of found.0)) }
    ensures only { IfOk result (λ found. SpellsNoOther syntax text.now (expression_of found.0)) }
    ensures counted { IfOk result
        (λ found. found.1 ≡ up_to_word (positions (expression_of found.0))) }
    ensures refused { IfErr result
        (λ fault. IsOutOfMemory fault ⊎ IsFirstFault syntax text.now fault) }
{
    let mut shape = at_start();
    let mut building = nothing(alloc);
    let mut at = 0;
    'tokens: while at < text.len() {
        let (token, beyond) = next_token(&mut shape, syntax, text, at)?;
        build(alloc, &mut building, token)?;
        at = beyond;
    }
    let positions = ended(&mut shape)?;
    let Building { level, outer: _ } = building;
    let tree = tree_of_level(level)?;
    Ok((tree, positions))
}
