//! Laws of the definitions, each the contract of a function that does nothing.
ghost use Rattle.grep_core.specs.Laws.{HasOneAnswer, MeansOne, ContextIsForLines};

use crate::Options;
use re_syntax::Syntax;

/// All expressions and files have one output, one list of messages and one status.
#[tactic(auto, using(crate::proofs::lemmas::LawsHold::has_one_answer))]
pub fn has_one_answer(_options: Options)
    ensures { HasOneAnswer _options }
{}

/// Patterns mean at most one list of expressions.
#[tactic(auto, using(crate::proofs::lemmas::LawsHold::means_one))]
pub fn means_one(_syntax: Syntax, _options: Options)
    ensures { MeansOne _syntax _options }
{}

/// Lines around selected ones are shown only where lines are written and a context is given.
#[tactic(auto, using(crate::proofs::lemmas::ContextLaws::context_is_for_lines))]
pub fn context_is_for_lines(_options: Options)
    ensures { ContextIsForLines _options }
{}
