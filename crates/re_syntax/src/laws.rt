//! Laws of the definitions, each the contract of a function that does nothing.
ghost use Rattle.re_syntax.specs.Laws.{SpellsOne, KeepsStandard, BeginsWithOneBracket, HasOneSplit};
ghost use Rattle.re_syntax.specs.Laws.{HasOnePartList, HasOneCut};

use crate::syntax::Syntax;

/// A text spells at most one expression in each syntax.
#[tactic(auto, using(crate::proofs::lemmas::SpelledUnique::spells_one))]
pub fn spells_one(_text: &[u8])
    ensures { SpellsOne _text.now }
{}

/// What the standard defines keeps its meaning beside GNU grep's forms. A basic expression of the
/// standard spells the tree that it has there, and so does an extended one without `{,`.
#[tactic(auto, using(crate::proofs::lemmas::StandardKept::keeps_standard))]
pub fn standard_is_kept(_text: &[u8])
    ensures { KeepsStandard _text.now }
{}

/// A bracket expression is read in one way, whatever follows it.
#[tactic(auto, using(crate::proofs::lemmas::BracketsUnique::begins_with_one_bracket))]
pub fn brackets_are_unique(_text: &[u8])
    ensures { BeginsWithOneBracket _text.now }
{}

/// An input has one list of lines, and a pattern list one list of texts.
#[tactic(auto, using(crate::proofs::lemmas::SpelledUnique::has_one_split))]
pub fn has_one_split(_text: &[u8])
    ensures { HasOneSplit _text.now }
{}

/// A line has one list of parts, for all expressions.
#[tactic(auto, using(crate::proofs::lemmas::SpelledUnique::has_one_part_list))]
pub fn parts_are_unique(_line: &[u8])
    ensures { HasOnePartList _line.now }
{}

/// A text has one cut into tokens, which spells an expression, or one first fault.
#[tactic(auto, using(crate::proofs::lemmas::SpelledUnique::has_one_cut))]
pub fn cuts_are_unique(_text: &[u8])
    ensures { (syntax : Syntax) → HasOneCut syntax _text.now }
{}
