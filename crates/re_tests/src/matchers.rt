//! Lines that are settled without a step: what each match needs is looked for first.
use re_auto::fresh_meter;
use re_search::{LineMatch, Matcher, Span, Syntax};
use std::alloc::Global;
use std::process::Abort;
use std::test::Fail;

// A pattern: its syntax and text, whether both cases of a letter are alike, and whether the whole
// line has to be matched.
type Pattern = (Syntax, &'static [u8], bool, bool);

// A pattern, a line, whether it is matched, and a place: the part from there on.
type Search = (Pattern, &'static [u8], bool, usize, Option<(usize, usize)>);

const REPEATED: Pattern = (Syntax::Basic, b"x*ab", false, false);

const GROUPED: Pattern = (Syntax::Extended, b"x(ab|cd)y", false, false);

const IN_GROUPS: Pattern = (Syntax::Extended, b"x((ab)+)z", false, false);

const RARE: Pattern = (Syntax::Basic, b"the.*qzj", false, false);

const SETS: Pattern = (Syntax::Basic, b"[abc][xyz]", false, false);

const SOME_SETS: Pattern = (Syntax::Basic, b"[qz][jx][^a]", false, false);

const BEGUN: Pattern = (Syntax::Basic, b"ab*", false, true);

const BEGUN_BY_SETS: Pattern = (Syntax::Basic, b"[qz][jx].*", false, true);

const DATE: Pattern = (Syntax::Extended, b"[0-9]{4}-[0-9]{2}", false, false);

const AT_LEAST: Pattern = (Syntax::Basic, b"[0-9]\\{2,\\}-2\\{2,3\\}", false, false);

const BRANCHES: Pattern = (Syntax::Extended, b"queue|zebra|jukebox", false, false);

// Of many branches a run of each is looked for, if these are rare.
const MANY_BRANCHES: Pattern = (
    Syntax::Extended,
    b"jq1[x-z]*|jq2[x-z]*|jq3[x-z]*|jq4[x-z]*|jq5[x-z]*|jq6[x-z]*|jq7[x-z]*|jq8[x-z]*|jq9[x-z]*",
    false,
    true,
);

static NEEDED: [Search; 15] = [
    (REPEATED, b"xxxaxb", false, 0, None),
    (GROUPED, b"abcd", false, 0, None),
    (IN_GROUPS, b"xbayabz", false, 0, None),
    (RARE, b"the the", false, 0, None),
    (
        (Syntax::Extended, b"a(bc)", false, false),
        b"xabcabc",
        true,
        2,
        Some((4, 7)),
    ),
    (
        (Syntax::Basic, b"ab", true, false),
        b"xAb",
        true,
        0,
        Some((1, 3)),
    ),
    // Where the whole line is matched it has to be at the line's beginning.
    (BEGUN, b"cab", false, 0, None),
    (BEGUN_BY_SETS, b"aqj", false, 0, None),
    // Runs of sets, and a choice of strings.
    (SETS, b"ccaabcy", true, 0, Some((5, 7))),
    (SOME_SETS, b"q-z1x", false, 0, None),
    (BRANCHES, b"que zeb juk", false, 0, None),
    // A repeated set is needed as often as it is repeated at least.
    (DATE, b"2026-1-25", false, 0, None),
    (DATE, b"12026-111", true, 1, Some((1, 8))),
    (AT_LEAST, b"44-2x2", false, 0, None),
    (MANY_BRANCHES, b"qj2xyz", false, 0, None),
];

fn needed() -> &'static [Search] {
    &NEEDED
}

// The matcher of a pattern, in a vector: a function that drops one by itself is dear to prove.
fn made(alloc: Global, pattern: Pattern) -> Result<Vec<Matcher>, Fail> {
    let (syntax, text, fold, whole) = pattern;
    let matcher = Matcher::new(alloc, text, syntax, fold, whole, 1)?;
    let mut matchers = Vec::new(alloc);
    matchers.push(matcher)?;
    Ok(matchers)
}

/// The places of a part's first byte and after its last.
pub(crate) fn ends_of(part: Option<Span>) -> Option<(usize, usize)> {
    let Span { start, end } = part?;
    Some((start, end))
}

fn assert_found(rt: &impl Abort, matcher: &mut Matcher, row: &Search) {
    let ((_, text, _, whole), line, is_selected, from, expected) = *row;
    let mut meter = fresh_meter();
    assert!(rt; from <= line.len());
    if !whole {
        let found = matcher.find(line, from, &mut meter);
        assert_eq!(rt;
            ends_of(found),
            expected,
            "{text:?} on {line:?} from {from}"
        );
    }
    let is_match = matcher.is_match(line, &mut meter);
    assert_eq!(rt; is_match, is_selected, "{text:?} on {line:?}");
    assert!(rt;
        meter.built() == 0 && meter.reused() == 0,
        "{text:?} on {line:?}"
    );
}

fn assert_search(rt: &impl Abort, alloc: Global, row: &Search) -> Result<(), Fail> {
    let mut matchers = made(alloc, row.0)?;
    for matcher in &mut matchers {
        assert_found(rt, matcher, row);
    }
    Ok(())
}

#[test]
fn a_line_without_what_is_needed_takes_no_step(rt: HostRuntime) -> Result<(), Fail> {
    for row in needed() {
        assert_search(&rt, rt.alloc(), row)?;
    }
    Ok(())
}
