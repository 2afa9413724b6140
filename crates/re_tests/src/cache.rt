//! How steps are counted where pairs are held, and what a search does without memory for them.
//!
//! The library that tools/refuse_growths.sh loads before the C library takes requests of two sizes
//! as commands. Without it each request is granted, and each row is searched once.
use re_auto::{Meter, fresh_meter};
use re_search::{LineMatch, Matcher, Syntax};
use re_syntax::FaultKind;
use std::alloc::{AllocError, Global};
use std::process::Abort;
use std::test::Fail;

// A pattern in extended syntax, whether the whole line has to be matched, what the line repeats and
// how often, whether it is matched, how many entries the cache may have, the steps of two searches
// of the line (built and reused of the first, then of the second), and how many entries the cache
// has after them.
type Row = (
    &'static [u8],
    bool,
    &'static [u8],
    usize,
    bool,
    usize,
    (u64, u64, u64, u64),
    usize,
);

static ROWS: [Row; 16] = [
    (
        b"ab*e",
        false,
        b"a",
        1000,
        false,
        4096,
        (2, 998, 0, 1000),
        2,
    ),
    (b"ab*e", false, b"a", 1000, false, 1, (2, 998, 2, 998), 1),
    (b"ab*e", false, b"ab", 500, false, 1, (1000, 0, 1000, 0), 0),
    (b"ab*e", false, b"ab", 500, false, 2, (3, 997, 3, 997), 2),
    (
        b"ab*e",
        false,
        b"ab",
        500,
        false,
        65536,
        (3, 997, 0, 1000),
        3,
    ),
    (b"ab*e", true, b"a", 1000, false, 4096, (2, 0, 0, 2), 2),
    (b"(ab)*", true, b"ab", 500, true, 4096, (3, 997, 0, 1000), 3),
    (b"(ab)*", true, b"ab", 500, true, 2, (3, 997, 3, 997), 2),
    (
        b"(ab)*a",
        true,
        b"ab",
        500,
        false,
        4096,
        (3, 997, 0, 1000),
        3,
    ),
    (b"a*", false, b"b", 300, true, 4096, (0, 0, 0, 0), 0),
    // After the first byte, no stretch is on its way, and no byte can begin one.
    (b"a*$", false, b"b", 300, true, 4096, (300, 0, 299, 1), 1),
    (
        b"[ab]+$",
        false,
        b"ab",
        500,
        true,
        4096,
        (2, 998, 0, 1000),
        2,
    ),
    (
        b"[bc][^a]",
        false,
        b"a",
        1000,
        false,
        4096,
        (1000, 0, 999, 1),
        1,
    ),
    (
        b"[a-z]{3}[0-9]",
        false,
        b"ab1",
        200,
        false,
        4096,
        (4, 596, 0, 600),
        4,
    ),
    (
        b"a.c|b",
        false,
        b"ac",
        200,
        false,
        4096,
        (3, 397, 0, 400),
        3,
    ),
    // The sets grow for 300 bytes, more of them than there is room for.
    (
        b"([a-z]{150}){2}[0-9]",
        false,
        b"a",
        1000,
        false,
        256,
        (301, 699, 301, 699),
        86,
    ),
];

fn rows() -> &'static [Row] {
    &ROWS
}

// A text repeated this number of times.
fn repeated(alloc: Global, text: &[u8], times: usize) -> Result<Vec<u8>, AllocError> {
    let mut line = Vec::new(alloc);
    'times: for _ in 0..times {
        line.extend_from_slice(text)?;
    }
    Ok(line)
}

// Searches the line once more, compares the answer, and returns the steps.
fn searched(rt: &impl Abort, matcher: &mut Matcher, line: &[u8], row: &Row) -> Meter {
    let mut meter = fresh_meter();
    let is_selected = matcher.is_match(line, &mut meter);
    assert_eq!(rt; is_selected, row.4, "{:?}", row.0);
    meter
}

// The matcher of a row, in a vector: a function that drops one by itself is dear to prove.
fn made(rt: &impl Abort, alloc: Global, row: &Row) -> Result<Vec<Matcher>, Fail> {
    let (text, whole, _, _, _, states, _, _) = *row;
    assert!(rt; 1 <= states && states <= 65_536);
    let matcher = Matcher::new(alloc, text, Syntax::Extended, false, whole, states)?;
    let mut matchers = Vec::new(alloc);
    matchers.push(matcher)?;
    Ok(matchers)
}

// Searches the line once more, and compares its steps of both kinds.
fn assert_steps(
    rt: &impl Abort,
    matcher: &mut Matcher,
    line: &[u8],
    row: &Row,
    built: u64,
    reused: u64,
) {
    let meter = searched(rt, matcher, line, row);
    assert_eq!(rt; meter.built(), built, "{:?}, {} entries", row.0, row.5);
    assert_eq!(rt; meter.reused(), reused, "{:?}, {} entries", row.0, row.5);
}

// Searches the line twice, and compares the steps, and how many entries the cache has after them.
fn assert_searched_twice(rt: &impl Abort, matcher: &mut Matcher, line: &[u8], row: &Row) {
    assert_eq!(rt; matcher.cached(), 0, "{:?}", row.0);
    let (built, reused, built_again, reused_again) = row.6;
    assert_steps(rt, matcher, line, row, built, reused);
    assert_steps(rt, matcher, line, row, built_again, reused_again);
    assert_eq!(rt; matcher.cached(), row.7, "{:?}, {} entries", row.0, row.5);
}

fn assert_row(rt: &impl Abort, alloc: Global, row: &Row) -> Result<(), Fail> {
    let line = repeated(alloc, row.2, row.3)?;
    let mut matchers = made(rt, alloc, row)?;
    for matcher in &mut matchers {
        assert_searched_twice(rt, matcher, &line, row);
    }
    Ok(())
}

#[test]
fn pairs_that_are_held_are_reused(rt: HostRuntime) -> Result<(), Fail> {
    'rows: for row in rows() {
        assert_row(&rt, rt.alloc(), row)?;
    }
    Ok(())
}

// A request for this number of bytes and N more has the N-th request after it refused.
pub const REFUSE: usize = 9_000_000;

// A request for this number of bytes is refused where one was since the last command, and ends that
// command.
pub const WAS_REFUSED: usize = 8_000_000;

// How many requests the searches of a row make at most.
pub const MOST: usize = 2_000;

// Makes a request for this number of bytes.
pub fn ask(alloc: Global, bytes: usize) -> Result<usize, AllocError> {
    let mut mark = Vec::with_capacity(alloc, bytes)?;
    mark.push(b'.')?;
    Ok(mark.len())
}

// Searches the line once more: each byte that is passed counts one step of either kind.
fn assert_gone_over(rt: &impl Abort, matcher: &mut Matcher, line: &[u8], row: &Row) {
    let meter = searched(rt, matcher, line, row);
    let steps = meter.built().saturating_add(meter.reused());
    let (built, reused, _, _) = row.6;
    assert_eq!(rt; steps, built.saturating_add(reused), "{:?}", row.0);
}

// Searches the line twice while the N-th allocation fails; whether one did.
fn searched_without(
    rt: &impl Abort,
    alloc: Global,
    matcher: &mut Matcher,
    line: &[u8],
    row: &Row,
    n: usize,
) -> Result<bool, AllocError> {
    ask(alloc, REFUSE.saturating_add(n))?;
    assert_gone_over(rt, matcher, line, row);
    assert_gone_over(rt, matcher, line, row);
    Ok(ask(alloc, WAS_REFUSED).is_err())
}

// Searches the line twice while the N-th allocation fails, and once more; whether one was. The
// answers and the steps are as ever, and no more is held than may be.
fn assert_searched_without(
    rt: &impl Abort,
    alloc: Global,
    matcher: &mut Matcher,
    line: &[u8],
    row: &Row,
    n: usize,
) -> Result<bool, AllocError> {
    let refused = searched_without(rt, alloc, matcher, line, row, n)?;
    assert_gone_over(rt, matcher, line, row);
    assert!(rt; matcher.cached() <= row.5, "{:?}", row.0);
    Ok(refused)
}

// The same for a new matcher of the row.
fn assert_refused(rt: &impl Abort, alloc: Global, row: &Row, n: usize) -> Result<bool, Fail> {
    let line = repeated(alloc, row.2, row.3)?;
    let mut matchers = made(rt, alloc, row)?;
    let mut refused = false;
    for matcher in &mut matchers {
        refused = assert_searched_without(rt, alloc, matcher, &line, row, n)?;
    }
    Ok(refused)
}

// Refuses each request for memory of a row's searches in turn, until a run meets no refusal.
fn assert_each_refused(rt: &impl Abort, alloc: Global, row: &Row) -> Result<(), Fail> {
    'requests: for n in 1..=MOST {
        if !assert_refused(rt, alloc, row, n)? {
            return Ok(());
        }
    }
    panic!(rt; "a row that asks for memory without an end");
}

#[test]
fn searches_without_memory(rt: HostRuntime) -> Result<(), Fail> {
    'rows: for row in rows() {
        assert_each_refused(&rt, rt.alloc(), row)?;
    }
    Ok(())
}

// Lines, and whether `(^a|b)c` matches them, which has an anchor in one of its branches.
static ANCHORED: [(&[u8], bool); 4] = [
    (b"ac", true),
    (b"xbc", true),
    (b"xac", false),
    (b"", false),
];

fn anchored() -> &'static [(&'static [u8], bool)] {
    &ANCHORED
}

// Makes the matcher of that pattern while the N-th allocation fails; whether one did. There is room
// for it in the vector. A matcher that can't be made is out of memory.
fn added_without(
    rt: &impl Abort,
    alloc: Global,
    matchers: &mut Vec<Matcher>,
    n: usize,
) -> Result<bool, AllocError> {
    ask(alloc, REFUSE.saturating_add(n))?;
    match Matcher::new(alloc, b"(^a|b)c", Syntax::Extended, false, false, 256) {
        Ok(matcher) => matchers.push(matcher)?,
        Err(fault) => assert_eq!(rt; fault.kind, FaultKind::Memory),
    }
    Ok(ask(alloc, WAS_REFUSED).is_err())
}

// The same; a matcher that was made answers as ever.
fn assert_made_without(rt: &impl Abort, alloc: Global, n: usize) -> Result<bool, Fail> {
    let mut matchers = Vec::with_capacity(alloc, 1)?;
    let refused = added_without(rt, alloc, &mut matchers, n)?;
    for matcher in &mut matchers {
        for (line, matched) in anchored() {
            let mut meter = fresh_meter();
            assert_eq!(rt; matcher.is_match(line, &mut meter), *matched, "{:?}", line);
        }
    }
    Ok(refused)
}

#[test]
fn matchers_without_memory(rt: HostRuntime) -> Result<(), Fail> {
    'requests: for n in 1..=MOST {
        if !assert_made_without(&rt, rt.alloc(), n)? {
            return Ok(());
        }
    }
    panic!(&rt; "a matcher that asks for memory without an end");
}
