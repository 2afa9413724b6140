//! The utility on files in memory.
use std::test::Fail;

// crates/memory_files/README.md
use grep_core::Tally;
use grep_utility::run_grep;
use memory_files::{Content, MemoryFiles};
use re_auto::fresh_meter;
use std::alloc::Global;

/// The output and the status of grep for these words and this standard input.
fn grep(alloc: Global, words: &[String], input: &[u8]) -> (Vec<u8>, u8) {
    let mut files = MemoryFiles::new(&[], Content::new(input));
    let mut out = Tally::new(Vec::new(alloc));
    let mut err = Tally::new(Vec::new(alloc));
    let mut meter = fresh_meter();
    let status = run_grep(alloc, words, &mut files, &mut out, &mut err, &mut meter);
    (out.into_inner(), status)
}
// end

#[test]
fn standard_input_is_searched(rt: HostRuntime) -> Result<(), Fail> {
    let mut words = Vec::new(rt.alloc());
    words.push(String::from_str(rt.alloc(), "a")?)?;
    let (output, status) = grep(rt.alloc(), &words, b"ba\nc\n");
    assert!(rt; output.as_slice() == b"ba\n".as_slice());
    assert!(rt; status == 0);
    Ok(())
}
