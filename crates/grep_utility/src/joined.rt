//! Patterns that are searched for as one.
ghost use Rattle.std.specs.Prelude.{◌≡◌, ◌+◌, ◌≤◌, Bool, List, All, [], ◌∷◌, ◌++◌, IsTrue, IfOk};
ghost use Rattle.std.specs.Prelude.{map};
ghost use Rattle.re_syntax.specs.{Expression.{Expression, alt}, Holds.positions};
ghost use Rattle.re_syntax.specs.{Profile.most_positions, Working.Trees.expression_of};
ghost use Rattle.re_search.specs.Working.Patterns.{pattern_expression, meant_by, IsCounted};
ghost use Rattle.grep_utility.specs.Working.ServingMatchers.{AreGrouped};

use grep_core::Options;
use re_search::{Choice, Matcher, Pattern};
use std::alloc::{AllocError, Global};
use std::mem::replace;

// How many entries the cache of a matcher may have.
const MOST_STATES: usize = 16_384;

/// The matchers of patterns, a choice of them each, and the choice that the next pattern joins.
#[derive(Drop)]
pub struct Groups {
    /// The matchers.
    pub matchers: Vec<Matcher>,
    /// The choice.
    pub choice: Choice,
    /// Whether there is one pattern alone, which joins no choice but as a long string.
    pub alone: bool,
}

impl Groups {
    // Adds the pattern.
    fn add(
        &mut self,
        alloc: Global,
        pattern: Pattern<'_>,
        options: &Options,
    ) -> Result<(), AllocError>
        requires { IsCounted options.now.ignore_case pattern }
        ensures { (es : List Expression) →
            AreGrouped options.now.line_regexp es self.old.matchers.items
            (map expression_of self.old.choice) →
            IfOk result (λ _. AreGrouped options.now.line_regexp
            (es ++ meant_by options.now.ignore_case pattern.entry ∷ [])
            self.new.matchers.items (map expression_of self.new.choice)) }
    {
        let fold = options.ignore_case;
        if self.joins(&pattern) {
            return self.choice.add(alloc, pattern, fold);
        }
        self.close(alloc, options.line_regexp)?;
        if self.joins(&pattern) {
            return self.choice.add(alloc, pattern, fold);
        }
        let matcher = pattern.into_matcher(alloc, fold, options.line_regexp, MOST_STATES)?;
        self.matchers.push(matcher)?;
        Ok(())
    }

    // Whether the pattern joins the choice.
    fn joins(&self, pattern: &Pattern<'_>) -> bool
        ensures { IsTrue result → (fold : Bool) → IsCounted fold pattern.now →
            positions (alt (map expression_of self.now.choice))
            + positions (pattern_expression pattern.now) ≤ most_positions }
    {
        if self.alone && !pattern.is_long_string() {
            return false;
        }
        self.choice.has_room(pattern)
    }

    // Gives the patterns of the choice their matcher. The next pattern begins another choice.
    fn close(&mut self, alloc: Global, whole: bool) -> Result<(), AllocError>
        ensures closed { (es : List Expression) →
            AreGrouped whole es self.old.matchers.items (map expression_of self.old.choice) →
            IfOk result (λ _. AreGrouped whole es self.new.matchers.items []) }
        ensures empty { IfOk result (λ _. self.new.choice ≡ []) }
    {
        if self.choice.is_empty() {
            return Ok(());
        }
        let choice = replace(&mut self.choice, Choice::new(alloc));
        let matcher = choice.into_matcher(alloc, whole, MOST_STATES)?;
        self.matchers.push(matcher)?;
        Ok(())
    }
}

/// Matchers for the patterns: one for a lone one, else each for as many as have 4,096 positions
/// together, in order.
pub fn joined_matchers(
    alloc: Global,
    patterns: Vec<Pattern<'_>>,
    options: &Options,
) -> Result<Vec<Matcher>, AllocError>
    requires { All (IsCounted options.now.ignore_case) patterns.items }
    ensures { IfOk result (λ matchers. AreGrouped options.now.line_regexp
        (map (meant_by options.now.ignore_case) patterns.entry.items) matchers.items []) }
{
    let mut groups = Groups {
        matchers: Vec::new(alloc),
        choice: Choice::new(alloc),
        alone: patterns.len() == 1,
    };
    for pattern in patterns {
        groups.add(alloc, pattern, options)?;
    }
    groups.close(alloc, options.line_regexp)?;
    let Groups { matchers, .. } = groups;
    Ok(matchers)
}
