//! All parts of a line, in one search of it, by steps and by passed bytes, also while each allocation
//! fails in turn. Where none is refused, each line is searched once.
ghost use Rattle.std.specs.Prelude.{◌≤◌, false, IfOk, length};
ghost use Rattle.re_search.specs.Working.Matchers.{AreAlike};

use crate::cache::{MOST, REFUSE, WAS_REFUSED, ask};
use crate::matchers::ends_of;
use re_auto::{Meter, fresh_meter};
use re_search::{LineParts, Matcher, Syntax, next_part, parts};
use re_syntax::split_file;
use std::alloc::{AllocError, Global};
use std::process::Abort;
use std::test::Fail;

// Extended expressions one a line, the letters of which a line is made again and again, how often,
// and how many parts it has.
type Row = (&'static [u8], &'static [u8], usize, u64);

static ROWS: [Row; 15] = [
    // A search for each part goes on to the line's end.
    (b"a|a*[bc]", b"a", 200, 200),
    (b"a*[bc]|a", b"a", 200, 200),
    (b"a\na*[bc]", b"a", 200, 200),
    // A longer part comes at the end.
    (b"a|a*[bc]", b"aaaab", 40, 40),
    (b"x\na*b\nx[ax]*b", b"xa", 90, 90),
    // Anchors.
    (b"a|a*b$", b"a", 100, 100),
    (b"^aa|a|aa*b", b"a", 100, 99),
    (b"a$\nab*c|b", b"ab", 80, 80),
    (b"a|a*$", b"a", 100, 1),
    // Parts that end where others would begin.
    (b"ab|b\nba*c", b"ab", 90, 90),
    // A string, or what a string is needed for, that is nowhere or at the end alone.
    (b",\nzzz", b"a,", 200, 200),
    (b"a\nz[a-z]*q", b"a", 200, 200),
    (b"a\n[zk]b*\naaaab", b"a", 200, 200),
    // No part, and parts of one byte.
    (b"b\naa*c", b"a", 100, 0),
    (b"[ab]\n[ab]*c", b"ab", 100, 200),
];

fn rows() -> &'static [Row] {
    &ROWS
}

// The letters again and again.
fn again(alloc: Global, letters: &[u8], times: usize) -> Result<Vec<u8>, Fail> {
    let mut line = Vec::new(alloc);
    for _ in 0..times {
        line.extend_from_slice(letters)?;
    }
    Ok(line)
}

// The matchers of extended expressions, one a line.
fn all_made(alloc: Global, texts: &[u8]) -> Result<Vec<Matcher>, Fail>
    ensures { IfOk result (λ v. AreAlike false v.items) }
{
    let mut matchers = Vec::new(alloc);
    for text in split_file(texts) {
        let matcher = Matcher::new(alloc, text, Syntax::Extended, false, false, 64)?;
        matchers.push(matcher)?;
    }
    Ok(matchers)
}

// Compares each part with that of a search alone, and returns how many there are.
fn count_parts(
    rt: &impl Abort,
    matchers: &mut [Matcher],
    others: &mut [Matcher],
    line: &[u8],
    line_parts: &mut LineParts,
    meter: &mut Meter,
) -> u64
    requires alike { AreAlike false matchers.old }
    requires others { AreAlike false others.old }
    requires room { length line.now ≤ line_parts.old.room }
{
    line_parts.begin();
    let mut from = 0;
    let mut count: u64 = 0;
    while let Some(part) = next_part(matchers, false, line, from, line_parts, meter) {
        let expected = parts(others, false, line, from, &mut fresh_meter());
        assert_eq!(rt; Some((part.start, part.end)), ends_of(expected), "{line:?}");
        from = part.end;
        count += 1;
    }
    count
}

// No more was counted than by one search of a line of this number of bytes.
fn assert_counted(rt: &impl Abort, row: &Row, matchers: usize, bytes: usize, meter: &Meter) {
    let steps = meter.built().saturating_add(meter.reused());
    let most = (matchers as u64).saturating_mul((bytes as u64).saturating_add(1));
    assert!(rt; steps <= most, "{:?}", row.0);
    assert!(rt; meter.passed() <= most, "{:?}", row.0);
}

// Searches for the parts of a line while the N-th allocation fails; whether one did. Where there is
// no room for the line, one came.
fn searched_without(
    rt: &impl Abort,
    alloc: Global,
    matchers: &mut [Matcher],
    others: &mut [Matcher],
    line: &[u8],
    row: &Row,
    n: usize,
) -> Result<bool, AllocError>
    requires alike { AreAlike false matchers.old }
    requires others { AreAlike false others.old }
{
    let asked = matchers.len();
    let mut line_parts = LineParts::new(alloc);
    let mut meter = fresh_meter();
    ask(alloc, REFUSE.saturating_add(n))?;
    match line_parts.make_room(line.len()) {
        Ok(()) => {}
        Err(_) => {
            assert!(rt; ask(alloc, WAS_REFUSED).is_err(), "{:?}", row.0);
            return Ok(true);
        }
    }
    let count = count_parts(rt, matchers, others, line, &mut line_parts, &mut meter);
    let refused = ask(alloc, WAS_REFUSED).is_err();
    assert_eq!(rt; count, row.3, "{:?}", row.0);
    assert_counted(rt, row, asked, line.len(), &meter);
    Ok(refused)
}

// The same for new matchers of the row.
fn assert_refused(rt: &impl Abort, alloc: Global, row: &Row, n: usize) -> Result<bool, Fail> {
    let (texts, letters, times, _) = *row;
    let mut matchers = all_made(alloc, texts)?;
    let mut others = all_made(alloc, texts)?;
    let line = again(alloc, letters, times)?;
    Ok(searched_without(rt, alloc, &mut matchers, &mut others, &line, row, n)?)
}

// Refuses each request for memory of a row's searches in turn, until a run meets no refusal.
fn assert_each_refused(rt: &impl Abort, alloc: Global, row: &Row) -> Result<(), Fail> {
    'requests: for n in 1..=MOST {
        if !assert_refused(rt, alloc, row, n)? {
            return Ok(());
        }
    }
    panic!(rt; "a row that asks for memory without an end");
}

#[test]
fn parts_without_memory(rt: HostRuntime) -> Result<(), Fail> {
    'rows: for row in rows() {
        assert_each_refused(&rt, rt.alloc(), row)?;
    }
    Ok(())
}
