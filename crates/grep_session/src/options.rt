//! What an option or a syntax affects.
ghost use Rattle.std.specs.Prelude.{◌≡◌, MatchBool};
ghost use Rattle.grep_session.specs.Working.Effects.{HasEffect};

use grep_core::Flag;
use re_search::Syntax;

/// Whether two syntaxes are the same.
pub fn is_same(a: Syntax, b: Syntax) -> bool
    ensures { MatchBool result (a ≡ b) (a ≡ b → ⊥) }
{
    match (a, b) {
        (Syntax::Basic, Syntax::Basic) => true,
        (Syntax::Extended, Syntax::Extended) => true,
        (Syntax::Fixed, Syntax::Fixed) => true,
        _ => false,
    }
}

/// How an option affects what is kept.
#[derive(Clone, Copy, Drop)]
pub enum Effect {
    /// Other lines may be matched.
    Verdicts,
    /// The parts of lines have to be searched.
    Parts,
    /// All that is kept stays valid, but other lines may be selected, or no parts listed.
    Hits,
    /// All that is kept stays valid, and the same is selected and listed.
    Output,
}

/// How an option with this value affects what is kept.
pub fn effect_of(flag: Flag, on: bool) -> Effect
    ensures { HasEffect flag on result }
{
    match flag {
        Flag::IgnoreCase => Effect::Verdicts,
        Flag::LineRegexp => Effect::Verdicts,
        Flag::OnlyMatching if on => Effect::Parts,
        Flag::OnlyMatching => Effect::Hits,
        Flag::InvertMatch => Effect::Hits,
        _ => Effect::Output,
    }
}
