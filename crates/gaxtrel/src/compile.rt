//! The calls that make a matcher, limit it, and free it.
ghost use Rattle.std.specs.Prelude.{◌≡◌, ◌⊎◌, Some, None, true, false};
ghost use Rattle.{re_meter.specs.Meters.fresh, re_search.specs.Working.Sought.Sought};
ghost use Rattle.gaxtrel.specs.Calls.{IsEmpty, IsFor, IsMisused, patterns_in, steps_of};
ghost use Rattle.gaxtrel.specs.{Made.{Makes, options_for}, Kept.Terms};

use crate::held::Held;
use crate::holder::GaxtrelHolder;
use crate::numbers::{GaxtrelFault, MISUSED, fault_of, too_many};
use crate::options::{GaxtrelOptions, has_too_many, known_syntax, plain_options};
use crate::patterns::Patterns;
use re_auto::fresh_meter;
use re_syntax::FaultKind;
use std::alloc::Global;

/// Makes a matcher of a pattern. What `matcher` held before is freed. Answers 0; or 1 if the
/// pattern is refused, 2 if memory is refused, 3 if `syntax` is no syntax: then `matcher` holds
/// none.
#[unsafe(no_mangle)]
pub extern "C" fn gaxtrel_compile(
    alloc: Global,
    matcher: &mut GaxtrelHolder,
    pattern: &[u8],
    syntax: u32,
    fold: bool,
    whole: bool,
    fault: &mut GaxtrelFault,
) -> u32
    ensures { Makes (options_for syntax fold whole false true) pattern.now
        matcher.new.handle.held fault.old fault.new matcher.new.work result }
{
    let options = plain_options(syntax, fold, whole, false, true);
    make(alloc, matcher, pattern, &options, fault)
}

/// Makes one matcher of several patterns, which are the lines of `patterns`. What `matcher` held
/// before is freed. Answers 0; or 1 if a pattern is refused or there are more than 65,535, 2 if
/// memory is refused, 3 if `syntax` is no syntax: then `matcher` holds none.
#[unsafe(no_mangle)]
pub extern "C" fn gaxtrel_compile_lines(
    alloc: Global,
    matcher: &mut GaxtrelHolder,
    patterns: &[u8],
    syntax: u32,
    fold: bool,
    whole: bool,
    fault: &mut GaxtrelFault,
) -> u32
    ensures { Makes (options_for syntax fold whole true false) patterns.now
        matcher.new.handle.held fault.old fault.new matcher.new.work result }
{
    let options = plain_options(syntax, fold, whole, true, false);
    make(alloc, matcher, patterns, &options, fault)
}

/// The same, but the matcher keeps each pattern apart, and can say which ones match a line.
#[unsafe(no_mangle)]
pub extern "C" fn gaxtrel_compile_each(
    alloc: Global,
    matcher: &mut GaxtrelHolder,
    patterns: &[u8],
    syntax: u32,
    fold: bool,
    whole: bool,
    fault: &mut GaxtrelFault,
) -> u32
    ensures { Makes (options_for syntax fold whole true true) patterns.now
        matcher.new.handle.held fault.old fault.new matcher.new.work result }
{
    let options = plain_options(syntax, fold, whole, true, true);
    make(alloc, matcher, patterns, &options, fault)
}

/// Makes a matcher as its options say. What `matcher` held before is freed. Answers 0; or 1 if a
/// pattern is refused or there are too many, 2 if memory is refused, 3 if the options are not
/// known: then `matcher` holds none.
#[unsafe(no_mangle)]
pub extern "C" fn gaxtrel_compile_with(
    alloc: Global,
    matcher: &mut GaxtrelHolder,
    patterns: &[u8],
    options: &GaxtrelOptions,
    fault: &mut GaxtrelFault,
) -> u32
    ensures { Makes options.now patterns.now matcher.new.handle.held fault.old fault.new
        matcher.new.work result }
{
    make(alloc, matcher, patterns, options, fault)
}

// The same.
fn make(
    alloc: Global,
    matcher: &mut GaxtrelHolder,
    text: &[u8],
    options: &GaxtrelOptions,
    fault: &mut GaxtrelFault,
) -> u32
    ensures { Makes options.now text.now matcher.new.handle.held fault.old fault.new
        matcher.new.work result }
{
    *matcher = GaxtrelHolder::empty(alloc);
    let Some(syntax) = known_syntax(options) else {
        return MISUSED;
    };
    if has_too_many(options, text) {
        *fault = too_many(options.patterns);
        return 1;
    }
    match Patterns::of(alloc, text, syntax, options) {
        Ok(made) => hold(alloc, made, matcher),
        Err(refused) => {
            if matches!(refused.1.kind, FaultKind::Memory) {
                return 2;
            }
            *fault = fault_of(refused.0, refused.1);
            1
        }
    }
}

// Holds the patterns: 0, or 2 if memory is refused.
fn hold(alloc: Global, patterns: Patterns, matcher: &mut GaxtrelHolder) -> u32
    requires { IsEmpty matcher.old.handle.held matcher.old.work }
    ensures two { (result ≡ 0) ⊎ (result ≡ 2) }
    ensures held { result ≡ 0 → patterns_in matcher.new.handle.held ≡ Some patterns }
    ensures none { result ≡ 2 → matcher.new.handle.held ≡ None }
    ensures work { steps_of matcher.new.work ≡ fresh }
{
    let Ok(boxed) = Box::new(alloc, Held::Patterns(patterns)) else {
        return 2;
    };
    *matcher = GaxtrelHolder::of(boxed, &fresh_meter());
    0
}

/// Sets the limit of the work of each call on `matcher`; 0 is none. Answers 0; or 3 if it holds no
/// patterns.
#[unsafe(no_mangle)]
pub extern "C" fn gaxtrel_limit(alloc: Global, matcher: &mut GaxtrelHolder, limit: u64) -> u32
    ensures set { (t : Terms) (sought : Sought) → IsFor t matcher.old.handle.held sought →
        (result ≡ 0) × IsFor (record { apart = t.apart; matchers = t.matchers; limit = limit })
        matcher.new.handle.held sought }
    ensures none { patterns_in matcher.old.handle.held ≡ None → IsMisused
        matcher.old.handle.held matcher.new.handle.held matcher.new.work result }
    ensures work { steps_of matcher.new.work ≡ fresh }
{
    let Some(mut boxed) = matcher.take(alloc) else {
        return MISUSED;
    };
    let Held::Patterns(patterns) = &mut *boxed else {
        return matcher.put_back(boxed, MISUSED);
    };
    patterns.set_limit(limit);
    *matcher = GaxtrelHolder::of(boxed, &fresh_meter());
    0
}

/// Frees what `matcher` holds. It then holds none.
#[unsafe(no_mangle)]
pub extern "C" fn gaxtrel_free(alloc: Global, matcher: &mut GaxtrelHolder)
    ensures { IsEmpty matcher.new.handle.held matcher.new.work }
{
    *matcher = GaxtrelHolder::empty(alloc);
}
