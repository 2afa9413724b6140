//! Laws of the definitions, as functions that do nothing.
ghost use Rattle.grep_session.specs.{Headline.AcceptedEditsDecide, Laws.EditsAreDetermined};

/// An edit has one outcome for its inputs, up to what is reported of a refused pattern, and one
/// cost.
#[tactic(auto, using(crate::proofs::lemmas::EditLaws::edits_are_determined))]
pub fn edits_are_determined()
    ensures { EditsAreDetermined }
{}

/// After any attempts on a new session it holds the inputs that the accepted edits alone leave. A
/// further edit is answered for these inputs. For given inputs grep's output, messages and status
/// are unique.
#[tactic(auto, using(crate::proofs::lemmas::HeadlineLaws::accepted_edits_decide))]
pub fn accepted_edits_decide()
    ensures { AcceptedEditsDecide }
{}
