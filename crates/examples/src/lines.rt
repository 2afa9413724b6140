//! Lines that are handed out.

// crates/grep_io/README.md
use grep_io::{Lines, ReadFault, Tally};
use std::alloc::Global;

/// How long the longest line of a text is.
fn longest(alloc: Global, text: &[u8]) -> Result<usize, ReadFault> {
    let Ok(mut lines) = Lines::new(alloc, Tally::new(text)) else {
        return Err(ReadFault::Memory);
    };
    let mut longest = 0;
    while lines.next_line()? {
        longest = lines.line().len().max(longest);
    }
    Ok(longest)
}
// end

#[test]
fn lines_have_lengths(rt: HostRuntime) {
    assert!(rt; longest(rt.alloc(), b"a\nbcd\nef") == Ok(3));
}
