//! The matchers of patterns.
ghost use Rattle.std.specs.Prelude.{◌≡◌, ◌≤◌, [], ◌∷◌, map, IfOk, IfErr};
ghost use Rattle.re_syntax.specs.Profile.{most_states};
ghost use Rattle.grep_core.specs.Working.MatcherLists.{AreMatchers, KeepAtMost};
ghost use Rattle.grep_session.specs.Working.Refusals.{RefusesFirst, reported_at};

use crate::fault::EditFault;
use crate::vec_push::push;
use grep_core::Options;
use re_search::{Matcher, Syntax};
use re_syntax::{FaultKind, PatternFault};
use std::alloc::Global;

/// The fault of the pattern at a place. Out of memory is no fault of the pattern.
fn fault_at(place: usize, fault: PatternFault) -> EditFault
    ensures { result ≡ reported_at place fault }
{
    match fault.kind {
        FaultKind::Memory => EditFault::Memory,
        _ => EditFault::Pattern(place, fault),
    }
}

/// A matcher for the text.
///
/// # Errors
///
/// `EditFault::Pattern` with place 0 if it is not a valid pattern, and why; or `EditFault::Memory`.
pub fn read_matcher(
    alloc: Global,
    text: &[u8],
    syntax: Syntax,
    options: &Options,
    states: usize,
) -> Result<Matcher, EditFault>
    requires some { 1 ≤ states }
    requires few { states ≤ most_states }
    ensures ok { IfOk result
        (λ matcher. AreMatchers syntax options.now (text.now ∷ []) (matcher ∷ [])) }
    ensures rooms { IfOk result (λ matcher. KeepAtMost states (matcher ∷ [])) }
    ensures err { IfErr result (RefusesFirst syntax options.now.ignore_case (text.now ∷ [])) }
{
    let fold = options.ignore_case;
    let whole = options.line_regexp;
    match Matcher::new(alloc, text, syntax, fold, whole, states) {
        Ok(matcher) => Ok(matcher),
        Err(fault) => Err(fault_at(0, fault)),
    }
}

/// A matcher for each of the texts, in order.
///
/// # Errors
///
/// `EditFault::Pattern` with the place of the first text that is not a valid pattern, and why; or
/// `EditFault::Memory`.
pub fn read_matchers(
    alloc: Global,
    texts: &[Vec<u8>],
    syntax: Syntax,
    options: &Options,
    states: usize,
) -> Result<Vec<Matcher>, EditFault>
    requires some { 1 ≤ states }
    requires few { states ≤ most_states }
    ensures ok { IfOk result
        (λ matchers.
        AreMatchers syntax options.now (map (λ text. text.items) texts.now) matchers.items) }
    ensures rooms { IfOk result (λ matchers. KeepAtMost states matchers.items) }
    ensures err { IfErr result
        (RefusesFirst syntax options.now.ignore_case (map (λ text. text.items) texts.now)) }
{
    let mut matchers = Vec::new(alloc);
    for text in texts {
        let fold = options.ignore_case;
        let whole = options.line_regexp;
        let matcher = match Matcher::new(alloc, text, syntax, fold, whole, states) {
            Ok(matcher) => matcher,
            Err(fault) => return Err(fault_at(matchers.len(), fault)),
        };
        match push(&mut matchers, matcher) {
            Ok(()) => {}
            Err(_) => return Err(EditFault::Memory),
        }
    }
    Ok(matchers)
}
