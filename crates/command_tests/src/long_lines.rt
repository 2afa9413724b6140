//! Lines, while each allocation fails in turn.
//!
//! Where no library refuses requests, as tools/refuse_growths.sh has it, each is granted, and each
//! text is read once.
use crate::marks::{refuse, was_refused};
use grep_core::{Lines, ReadFault, Tally};
use std::alloc::{AllocError, Global};
use std::process::Abort;
use std::test::Fail;

/// How many requests the lines of these texts make at most.
const MOST: usize = 200;

/// The lengths of the lines of each text; the last line has no newline.
static LENGTHS: [&[usize]; 3] = [
    &[100_000],
    &[0, 1, 65_535, 65_536, 65_537, 3, 131_072, 0, 131_073, 2],
    &[65_534, 200_000, 100_000, 7, 400_000, 1],
];

/// The text of lines of these lengths, each of a letter of its own.
fn text_of(alloc: Global, lengths: &[usize]) -> Result<Vec<u8>, AllocError> {
    let mut text = Vec::new(alloc);
    let mut letter = b'a';
    for length in lengths {
        let end = text.len().saturating_add(*length);
        text.resize(end, letter)?;
        text.push(b'\n')?;
        letter = letter.saturating_add(1);
    }
    text.pop();
    Ok(text)
}

/// Compares the next line with a text. A line for which a request was refused is asked for again.
fn assert_next(rt: &impl Abort, lines: &mut Lines<Tally<&[u8]>>, wanted: &[u8]) -> bool {
    let first = lines.next_line();
    if first == Err(ReadFault::Memory) {
        assert_eq!(rt; lines.next_line(), Ok(true), "{} bytes", wanted.len());
    } else {
        assert_eq!(rt; first, Ok(true), "{} bytes", wanted.len());
    }
    assert!(rt; lines.line() == wanted, "{} bytes", wanted.len());
    first == Err(ReadFault::Memory)
}

/// Reads the lines of a text while the N-th allocation fails; whether one did.
fn assert_refused(rt: &impl Abort, alloc: Global, text: &[u8], n: usize) -> Result<bool, Fail> {
    let mut reported = false;
    refuse(alloc, n)?;
    match Lines::new(alloc, Tally::new(text)) {
        Err(reader) => {
            reported = true;
            assert!(rt; reader.into_inner() == text, "the reader comes back");
        }
        Ok(mut lines) => {
            for wanted in text.split(|byte| *byte == b'\n') {
                reported |= assert_next(rt, &mut lines, wanted);
            }
            assert_eq!(rt; lines.next_line(), Ok(false));
            assert_eq!(rt; lines.held(), 0);
        }
    }
    let refused = was_refused(alloc);
    assert_eq!(rt; reported, refused, "{n}");
    Ok(refused)
}

/// Refuses each request for memory of a text's lines in turn, until a run meets no refusal.
fn assert_each_refused(rt: &impl Abort, alloc: Global, text: &[u8]) -> Result<(), Fail> {
    for n in 1..=MOST {
        if !assert_refused(rt, alloc, text, n)? {
            return Ok(());
        }
    }
    Err(Fail::from("lines that ask for memory again and again"))
}

#[test]
fn lines_without_memory(rt: HostRuntime) -> Result<(), Fail> {
    for lengths in &LENGTHS {
        let text = text_of(rt.alloc(), lengths)?;
        assert_each_refused(&rt, rt.alloc(), &text)?;
    }
    Ok(())
}
