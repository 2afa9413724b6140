//! The matchers of patterns, which are asked together.
ghost use Rattle.std.specs.Prelude.{◌≡◌, ◌+◌, ◌<◌, ◌≤◌, ◌↔◌, ◌⊎◌, [], ◌∷◌, IfErr, IfOk, IsTrue};
ghost use Rattle.std.specs.Prelude.{MatchOption, false, length, true};
ghost use Rattle.{re_syntax.specs.Lines.lines_of, re_meter.specs.Meters.AddsAtMost};
ghost use Rattle.{re_auto.specs.Searches.FindsPart, re_search.specs.Reading.IsOutOfMemory};
ghost use Rattle.re_search.specs.Working.Sought.{CountsSought, IsSought};
ghost use Rattle.{grep_core.specs.Matchers.IsFirstRefused, gaxtrel.specs.Working.Owned.Stays};
ghost use Rattle.gaxtrel.specs.{Made.{is_apart, texts_for, AreMade}, Calls.PutsNumbers};
ghost use Rattle.gaxtrel.specs.Calls.{line_cost, PutsParts, PutsLines, FindsLine, Reaches};
ghost use Rattle.gaxtrel.specs.Kept.{Allows, sought_in, terms_of, expressions_in};

use crate::each::{NO_MEMORY, STATES, add, matchers_of};
use crate::line_parts::put_parts;
use crate::options::GaxtrelOptions;
use crate::part::GaxtrelPart;
use crate::text_lines::{GaxtrelLine, put_lines};
use crate::text_search::{count_in_text, last_line, next_in_text};
use crate::which::put_numbers;
use grep_core::Options;
use grep_utility::searchers_of;
use re_search::{LineParts, Matcher, Meter, Span, Syntax, is_matched, parts};
use re_syntax::PatternFault;
use std::alloc::{AllocError, Global};
use std::marker::Model;

/// The matchers of patterns, whether the whole line has to be matched, whether each pattern has its
/// own, and the limit of a call's work, or 0.
#[derive(Drop)]
pub struct Patterns {
    matchers: Vec<Matcher>,
    whole: bool,
    apart: bool,
    limit: u64,
}

impl Model for Patterns {
    ghost use Rattle.std.specs.Coded.{codes};
    ghost use Rattle.re_search.specs.Working.Matchers.{AreAlike};
    ghost use Rattle.re_search.specs.contracts.matcher.Matcher as matcher;
    ghost use Rattle.grep_utility.specs.Working.ServingMatchers.{HaveRoom};
    ghost use Rattle.gaxtrel.specs.Kept.{Kept};

    ghost Value = { Kept };

    ghost coded = { Prim.hlevel (codes, matcher.the_row.coded) };

    ghost view = { λ p. record {
      matchers = p.matchers.items;
      whole = p.whole;
      apart = p.apart;
      limit = p.limit;
    } };

    ghost invariant = { λ p. AreAlike p.whole p.matchers.items × HaveRoom p.matchers.items };
}

impl Patterns {
    /// The patterns that a text is, as the options say.
    ///
    /// # Errors
    ///
    /// The number of the first pattern that is refused, counted from 0, and why; or
    /// `FaultKind::Memory` at 0.
    pub(crate) fn of(
        alloc: Global,
        text: &[u8],
        syntax: Syntax,
        options: &GaxtrelOptions,
    ) -> Result<Patterns, (usize, PatternFault)>
        ensures made { IfOk result (AreMade syntax options.now.fold options.now.whole
            (is_apart options.now) options.now.limit (texts_for options.now text.now)) }
        ensures refused { IfErr result (λ refused. IsOutOfMemory refused.1 ⊎ IsFirstRefused syntax
            options.now.fold (texts_for options.now text.now) refused.0 refused.1) }
    {
        if !options.lines {
            return Patterns::of_text(alloc, text, syntax, options);
        }
        if options.apart {
            return Patterns::of_each(alloc, text, syntax, options);
        }
        Patterns::of_lines(alloc, text, syntax, options)
    }

    // One pattern. Of a fixed string no byte has a meaning; of other patterns one matcher is made.
    fn of_text(
        alloc: Global,
        text: &[u8],
        syntax: Syntax,
        options: &GaxtrelOptions,
    ) -> Result<Patterns, (usize, PatternFault)>
        ensures made { IfOk result (AreMade syntax options.now.fold options.now.whole true
            options.now.limit (text.now ∷ [])) }
        ensures refused { IfErr result (λ refused. IsOutOfMemory refused.1
            ⊎ IsFirstRefused syntax options.now.fold (text.now ∷ []) refused.0 refused.1) }
    {
        let (fold, whole) = (options.fold, options.whole);
        let matcher = match Matcher::new(alloc, text, syntax, fold, whole, STATES) {
            Ok(matcher) => matcher,
            Err(fault) => return Err((0, fault)),
        };
        let Ok(matchers) = alone(alloc, matcher) else {
            return Err((0, NO_MEMORY));
        };
        Ok(Patterns {
            matchers,
            whole,
            apart: true,
            limit: options.limit,
        })
    }

    // The patterns that are the lines of a text.
    fn of_lines(
        alloc: Global,
        texts: &[u8],
        syntax: Syntax,
        options: &GaxtrelOptions,
    ) -> Result<Patterns, (usize, PatternFault)>
        ensures made { IfOk result (AreMade syntax options.now.fold options.now.whole false
            options.now.limit (lines_of texts.now)) }
        ensures refused { IfErr result (λ refused. IsOutOfMemory refused.1
            ⊎ IsFirstRefused syntax options.now.fold (lines_of texts.now) refused.0 refused.1) }
    {
        let reading = reading(options.fold, options.whole);
        let matchers = match searchers_of(alloc, texts, syntax, &reading) {
            Ok(matchers) => matchers,
            Err(refused) => return Err(refused),
        };
        Ok(Patterns {
            matchers,
            whole: options.whole,
            apart: false,
            limit: options.limit,
        })
    }

    // The same, but each pattern is kept apart.
    fn of_each(
        alloc: Global,
        texts: &[u8],
        syntax: Syntax,
        options: &GaxtrelOptions,
    ) -> Result<Patterns, (usize, PatternFault)>
        ensures made { IfOk result (AreMade syntax options.now.fold options.now.whole true
            options.now.limit (lines_of texts.now)) }
        ensures refused { IfErr result (λ refused. IsOutOfMemory refused.1
            ⊎ IsFirstRefused syntax options.now.fold (lines_of texts.now) refused.0 refused.1) }
    {
        let reading = reading(options.fold, options.whole);
        let matchers = match matchers_of(alloc, texts, syntax, &reading) {
            Ok(matchers) => matchers,
            Err(refused) => return Err(refused),
        };
        Ok(Patterns {
            matchers,
            whole: options.whole,
            apart: true,
            limit: options.limit,
        })
    }

    /// Sets the limit of a call's work; 0 is none.
    pub(crate) fn set_limit(&mut self, limit: u64)
        ensures sought { sought_in self.new ≡ sought_in self.old }
        ensures apart { self.new.apart ≡ self.old.apart }
        ensures limit { self.new.limit ≡ limit }
    {
        self.limit = limit;
    }

    // How many of so many bytes may be searched.
    fn most_of(&self, bytes: usize) -> usize
        ensures few { result ≤ bytes }
        ensures within { Allows (terms_of self.now) result }
        ensures most { result < bytes → Allows (terms_of self.now) (result + 1) → ⊥ }
    {
        let matchers = self.matchers.len();
        if self.limit == 0 {
            return bytes;
        }
        if matchers == 0 {
            return bytes;
        }
        let most = self.limit / matchers as u64;
        bytes.min(most.saturating_sub(1) as usize)
    }

    /// Whether so many bytes may be searched.
    pub(crate) fn allows(&self, bytes: usize) -> bool
        ensures { IsTrue result ↔ Allows (terms_of self.now) bytes }
    {
        self.most_of(bytes) == bytes
    }

    /// The end of what may be searched of a text from a place on: that of the text, or of the whole
    /// lines in as many bytes as may be searched.
    pub(crate) fn reach(&self, text: &[u8], from: usize) -> usize
        ensures reached { Reaches (terms_of self.now) text.now from result }
        ensures within { result ≤ length text.now }
    {
        if from >= text.len() {
            return text.len();
        }
        let end = from + self.most_of(text.len() - from);
        if end == text.len() {
            return end;
        }
        from + last_line(&text[from..end])
    }

    /// Whether some pattern matches the line.
    pub(crate) fn is_match(&mut self, line: &[u8], meter: &mut Meter) -> bool
        ensures reported { IsTrue result ↔ IsSought (sought_in self.old) line.now }
        ensures same { Stays self.old self.new }
        ensures steps { AddsAtMost (line_cost (length (expressions_in self.old)) line.now) meter.old
            meter.new }
    {
        let whole = self.whole;
        is_matched(&mut self.matchers, whole, line, meter)
    }

    /// The part of the line that begins earliest at `from` or later, and of those that begin
    /// there the longest (XBD 9.1).
    pub(crate) fn find(&mut self, line: &[u8], from: usize, meter: &mut Meter) -> Option<Span>
        ensures reported { FindsPart (expressions_in self.old) line.now self.old.whole from result }
        ensures same { Stays self.old self.new }
        ensures steps { AddsAtMost (line_cost (length (expressions_in self.old)) line.now) meter.old
            meter.new }
    {
        if from > line.len() {
            return None;
        }
        let whole = self.whole;
        parts(&mut self.matchers, whole, line, from, meter)
    }

    /// How many parts the line has from a place on. The first ones are written over the array, as
    /// many as it has room for.
    ///
    /// # Errors
    ///
    /// If there is no memory for what is learned of the line. Then nothing is searched or written.
    pub(crate) fn parts(
        &mut self,
        alloc: Global,
        line: &[u8],
        from: usize,
        parts: &mut [GaxtrelPart],
        meter: &mut Meter,
    ) -> Result<usize, AllocError>
        ensures put { IfOk result
            (PutsParts (sought_in self.old) line.now from parts.old parts.new) }
        ensures refused { IfErr result
            (λ _. (parts.new ≡ parts.old) × (meter.new ≡ meter.old)) }
        ensures same { Stays self.old self.new }
        ensures steps { AddsAtMost (line_cost (length (expressions_in self.old)) line.now) meter.old
            meter.new }
    {
        if from > line.len() {
            return Ok(0);
        }
        let mut learned = LineParts::new(alloc);
        learned.make_room(line.len())?;
        let (whole, learned) = (self.whole, &mut learned);
        Ok(put_parts(&mut self.matchers, whole, line, from, learned, parts, meter))
    }

    /// How many patterns match the line, if they are kept apart. The numbers of the first ones are
    /// written over the array, as many as it has room for.
    pub(crate) fn which(
        &mut self,
        line: &[u8],
        numbers: &mut [usize],
        meter: &mut Meter,
    ) -> Option<usize>
        ensures put { MatchOption result
            ((self.old.apart ≡ false) × (numbers.new ≡ numbers.old) × (meter.new ≡ meter.old))
            (λ count. (self.old.apart ≡ true)
            × PutsNumbers (sought_in self.old) line.now numbers.old numbers.new count) }
        ensures same { Stays self.old self.new }
        ensures steps { AddsAtMost (line_cost (length (expressions_in self.old)) line.now) meter.old
            meter.new }
    {
        if !self.apart {
            return None;
        }
        let whole = self.whole;
        Some(put_numbers(&mut self.matchers, whole, line, numbers, meter))
    }

    /// The first line from a place on that some pattern matches, by its place in the text without
    /// its newline.
    pub(crate) fn next_line(&mut self, text: &[u8], from: usize, meter: &mut Meter) -> Option<Span>
        ensures reported { FindsLine (sought_in self.old) text.now from result meter.old meter.new }
        ensures same { Stays self.old self.new }
    {
        if from >= text.len() {
            return None;
        }
        let (whole, rest) = (self.whole, &text[from..]);
        let found = next_in_text(&mut self.matchers, whole, rest, meter);
        let Some(at) = found else {
            return None;
        };
        Some(Span {
            start: from + at.start,
            end: from + at.end,
        })
    }

    /// How many lines of a text from a place on were written over the array: the first ones that
    /// some pattern matches, as many as it has room for. The line at that place has a number.
    pub(crate) fn lines(
        &mut self,
        text: &[u8],
        from: usize,
        number: u64,
        lines: &mut [GaxtrelLine],
        meter: &mut Meter,
    ) -> usize
        ensures put { PutsLines (sought_in self.old) text.now from number lines.old lines.new result
            meter.old meter.new }
        ensures same { Stays self.old self.new }
    {
        let whole = self.whole;
        put_lines(&mut self.matchers, whole, text, from, number, lines, meter)
    }

    /// How many lines of a text some pattern matches.
    pub(crate) fn count_lines(&mut self, text: &[u8], meter: &mut Meter) -> u64
        ensures reported { CountsSought (sought_in self.old) (lines_of text.now) result }
        ensures same { Stays self.old self.new }
        ensures steps { AddsAtMost (line_cost (length (expressions_in self.old)) text.now) meter.old
            meter.new }
    {
        let whole = self.whole;
        count_in_text(&mut self.matchers, whole, text, meter)
    }
}

// A list of one matcher.
fn alone(alloc: Global, matcher: Matcher) -> Result<Vec<Matcher>, AllocError>
    ensures { IfOk result (λ matchers. matchers.items ≡ matcher ∷ []) }
{
    let mut matchers = Vec::new(alloc);
    add(&mut matchers, matcher)?;
    Ok(matchers)
}

// The options by which patterns are read.
fn reading(fold: bool, whole: bool) -> Options
    ensures fold { result.ignore_case ≡ fold }
    ensures whole { result.line_regexp ≡ whole }
{
    Options {
        ignore_case: fold,
        line_regexp: whole,
        ..Options::default()
    }
}
