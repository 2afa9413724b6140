//! The two commands whose bytes are worked by hand.
use grep_core::Tally;
use memory_files::{run_broken, run_row};
use re_auto::fresh_meter;
use std::alloc::{AllocError, Global};
use std::test::Fail;

/// Adds a word.
fn add(alloc: Global, words: &mut Vec<String>, word: &str) -> Result<(), AllocError> {
    let word = String::from_str(alloc, word)?;
    words.push(word)?;
    Ok(())
}

/// The words as strings.
fn listed(alloc: Global, words: &[&str]) -> Result<Vec<String>, AllocError> {
    let mut all = Vec::new(alloc);
    for word in words {
        add(alloc, &mut all, word)?;
    }
    Ok(all)
}

#[test]
fn lines_before_a_selected_one_and_a_missing_file(rt: HostRuntime) -> Result<(), Fail> {
    let alloc = rt.alloc();
    let words = listed(alloc, &["-n", "-B", "2", "a", "h", "missing"])?;
    let mut out = Tally::new(Vec::new(alloc));
    let mut messages = Tally::new(Vec::new(alloc));
    let (status, failed) = run_row(alloc, &words, &mut out, &mut messages, &mut fresh_meter());
    assert!(rt; out.into_inner().as_slice() == b"h-1-b\nh-2-c\nh:3:a\n".as_slice());
    assert!(rt; messages.into_inner().as_slice() == b"grep: missing: cannot open\n".as_slice());
    assert!(rt; status == 2);
    assert!(rt; failed == 1);
    Ok(())
}

#[test]
fn a_read_that_fails(rt: HostRuntime) -> Result<(), Fail> {
    let alloc = rt.alloc();
    let words = listed(alloc, &["-n", "a", "f"])?;
    let mut out = Tally::new(Vec::new(alloc));
    let mut messages = Tally::new(Vec::new(alloc));
    let meter = &mut fresh_meter();
    let (status, failed, returned, broken) = run_broken(
        alloc,
        &words,
        &mut out,
        &mut messages,
        meter,
    );
    assert!(rt; out.into_inner().as_slice() == b"1:a\n".as_slice());
    assert!(rt; messages.into_inner().as_slice() == b"grep: f: read error\n".as_slice());
    assert!(rt; status == 2);
    assert!(rt; failed == 1 && returned == 1 && broken == 1);
    Ok(())
}
