//! Patterns that are read.
use re_syntax::FaultKind;

// crates/re_syntax/README.md
use re_syntax::{PatternFault, Syntax, Tree, fold, read};
use std::alloc::Global;

/// What an extended expression means under `-i`.
fn read_folded(alloc: Global, text: &[u8]) -> Result<Tree, PatternFault> {
    let (tree, _) = read(alloc, Syntax::Extended, text)?;
    Ok(fold(tree))
}
// end

#[test]
fn expressions_are_read(rt: HostRuntime) {
    assert!(rt; read_folded(rt.alloc(), b"ab|[[:digit:]]{2}").is_ok());
}

#[test]
fn refused_expressions_have_a_fault(rt: HostRuntime) {
    let fault = PatternFault {
        kind: FaultKind::UnclosedGroup,
        at: 0,
    };
    assert!(rt; read_folded(rt.alloc(), b"(a").err() == Some(fault));
}
