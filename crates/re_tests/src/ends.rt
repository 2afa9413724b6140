//! Greatest ends, found by steps that are kept.
ghost use Rattle.std.specs.Prelude.{◌≤◌, length};
ghost use Rattle.re_syntax.specs.Working.Trees.{expression_of};
ghost use Rattle.re_ends.specs.Working.EndTables.{AreEndsFor};

use re_auto::{Automaton, fresh_meter};
use re_ends::{Asked, EndTable, Window};
use re_syntax::{Span, Syntax, read};

/// The ends that a line gets, and how many steps a second pass over it builds. `None` if the second
/// pass or searches find others, or a pass does not count a step for each byte.
fn passed_twice(rt: &HostRuntime, text: &[u8], line: &[u8]) -> Option<(Vec<usize>, u64)> {
    let Ok((tree, _)) = read(rt.alloc(), Syntax::Extended, text) else {
        return None;
    };
    let Ok(automaton) = Automaton::build(rt.alloc(), tree) else {
        return None;
    };
    let Ok(mut table) = EndTable::new(rt.alloc(), &automaton) else {
        return None;
    };
    let asked = Asked {
        alloc: rt.alloc(),
        automaton: &automaton,
        line,
    };
    let mut ends = vec![in rt.alloc(); 0usize; line.len()].ok()?;
    let mut again = vec![in rt.alloc(); 0usize; line.len()].ok()?;
    let mut meter = fresh_meter();
    let mut second = fresh_meter();
    let whole = Window {
        start: 0,
        end: line.len(),
    };
    table.add_ends(&asked, whole, &mut ends, &mut meter);
    table.add_ends(&asked, whole, &mut again, &mut second);
    if ends.as_slice() != again.as_slice() {
        return None;
    }
    if meter.built().saturating_add(meter.reused()) != line.len() as u64 {
        return None;
    }
    if second.built().saturating_add(second.reused()) != line.len() as u64 {
        return None;
    }
    if !is_found_from(&asked, &mut table, &ends, 0) {
        return None;
    }
    if !is_found_from(&asked, &mut table, &ends, line.len() / 3) {
        return None;
    }
    Some((ends, second.built()))
}

/// Whether a search from a place on finds the first end of the list, with a step for each byte.
fn is_found_from(asked: &Asked, table: &mut EndTable, ends: &[usize], start: usize) -> bool
    requires made { AreEndsFor (expression_of asked.now.automaton.now) table.old }
    requires within { start ≤ length asked.now.line.now }
    ensures made { AreEndsFor (expression_of asked.now.automaton.now) table.new }
{
    let mut meter = fresh_meter();
    let end = asked.line.len();
    let found = table.find(asked, Window { start, end }, &mut meter);
    let steps = meter.built().saturating_add(meter.reused());
    found == first_of(ends, start) && steps == (end - start) as u64
}

/// The stretch of the first place from `start` on that has an end.
fn first_of(ends: &[usize], start: usize) -> Option<Span> {
    for k in 0..ends.len() {
        if k >= start && ends[k] > 0 {
            return Some(Span {
                start: k,
                end: ends[k],
            });
        }
    }
    None
}

type Row = (&'static [u8], &'static [u8], &'static [usize]);

static ROWS: [Row; 11] = [
    (b"a|a*[bc]", b"aaab", &[4, 4, 4, 4]),
    (b"(a|aa)*a{3}c", b"aaaac", &[5, 5, 0, 0, 0]),
    (b".{1,3}", b"abcdef", &[3, 4, 5, 6, 6, 6]),
    (b"^a+|b$", b"aabb", &[2, 0, 0, 4]),
    (b"(^a|b)*c", b"abcabc", &[3, 3, 3, 0, 6, 6]),
    (b"ab*|bcd", b"abbcdb", &[3, 0, 5, 0, 0, 0]),
    (b"a.{0,2}b.{0,2}", b"xaxxbxx", &[0, 7, 0, 0, 0, 0, 0]),
    (b"x*", b"axxa", &[0, 3, 3, 0]),
    (b"(a|b){2}$", b"abab", &[0, 0, 4, 0]),
    (b"^ab|b+$|a", b"ab b abb", &[2, 0, 0, 0, 0, 6, 8, 8]),
    (
        b"a[^ ]*b",
        b"aab a xb ab",
        &[3, 3, 0, 0, 0, 0, 0, 0, 0, 11, 0],
    ),
];

fn rows() -> &'static [Row] {
    &ROWS
}

#[test]
fn places_get_their_greatest_ends_and_steps_are_kept(rt: HostRuntime) {
    for row in rows() {
        let (text, line, expected) = *row;
        let Some((ends, built)) = passed_twice(&rt, text, line) else {
            assert!(rt; false, "{text:?}");
            return;
        };
        assert!(rt; ends.as_slice() == expected, "{text:?}: {ends:?}");
        assert!(rt; built == 0, "{text:?}: {built}");
    }
}

/// A line of `a` and `b` without order.
fn mixed_line(rt: &HostRuntime, count: usize) -> Option<Vec<u8>> {
    let mut line = vec![in rt.alloc(); b'b'; count].ok()?;
    let mut seed = 1u64;
    'bytes: for k in 0..line.len() {
        seed = seed
            .wrapping_mul(6364136223846793005)
            .wrapping_add(1442695040888963407);
        if seed >> 62 < 2 {
            line[k] = b'a';
        }
    }
    Some(line)
}

// With many classes of bytes a row takes much memory.
const WIDE: &[u8] =
    b"(a|b){18}a(a|b)*|0123456789ABCDEFGHIJKLMNOPQRSTUVWXYZcdefghijklmnopqrstuvwxyz";

/// The greatest end of a match of `WIDE` from place `k` of such a line: the line's end, if there is
/// an `a` after 18 bytes.
fn end_from(line: &[u8], k: usize) -> usize {
    let Some(byte) = line.get(k.saturating_add(18)) else {
        return 0;
    };
    if *byte == b'a' {
        return line.len();
    }
    0
}

#[test]
fn ends_are_right_where_steps_are_removed(rt: HostRuntime) {
    let Some(line) = mixed_line(&rt, 40_000) else {
        return;
    };
    let Some((ends, built)) = passed_twice(&rt, WIDE, &line) else {
        assert!(rt; false);
        return;
    };
    assert!(rt; built > 4096, "{built}");
    'places: for k in 0..ends.len() {
        let expected = end_from(&line, k);
        assert!(rt; ends[k] == expected, "{k}: {} {expected}", ends[k]);
    }
}
