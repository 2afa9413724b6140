//! A law of the definitions, the contract of a function that does nothing.
ghost use Rattle.grep_core.specs.Working.SameChoice.{ServesForOthers};

use crate::Options;

/// A run for expressions that are the same choice as others, and at most as many, is a run for the
/// others.
#[tactic(auto, using(crate::proofs::lemmas::SameChoice::serves_for_others))]
pub fn serves_for_others(_options: Options)
    ensures { ServesForOthers _options }
{}
