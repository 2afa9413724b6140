//! Matchers that are asked for parts of lines.

// crates/re_search/README.md
use re_auto::fresh_meter;
use re_search::{LineMatch, Matcher, Span, Syntax};
use re_syntax::PatternFault;
use std::alloc::Global;

/// The first part of a line: the one that begins earliest, and of those the longest.
fn first_part(alloc: Global, line: &[u8]) -> Result<Option<Span>, PatternFault> {
    let text = b"ab|abcd|bc";
    let mut matcher = Matcher::new(alloc, text, Syntax::Extended, false, false, 256)?;
    Ok(matcher.find(line, 0, &mut fresh_meter()))
}
// end

#[test]
fn the_first_part_is_the_longest(rt: HostRuntime) {
    let part = Span { start: 1, end: 5 };
    assert!(rt; first_part(rt.alloc(), b"xabcde") == Ok(Some(part)));
}
