//! Calls that ask for no memory.
//!
//! The library that tools/refuse_growths.sh loads before the C library takes requests of two sizes
//! as commands, and refuses the first request of these calls. Without it each request is granted.
use re_auto::{Automaton, Mode, StateSet, fresh_meter};
use re_syntax::{Syntax, fold, read};
use std::alloc::{AllocError, Global};

/// A request for this number of bytes has the next request after it refused.
const REFUSE: usize = 9_000_001;

/// A request for this number of bytes is refused where one was since the last command, and ends
/// that command.
const WAS_REFUSED: usize = 8_000_000;

/// Makes a request for this number of bytes.
fn ask(alloc: Global, bytes: usize) -> Result<usize, AllocError> {
    let mut mark = Vec::with_capacity(alloc, bytes)?;
    mark.push(b'.')?;
    Ok(mark.len())
}

/// The automaton of an expression whose letters match both cases.
fn folded(rt: &HostRuntime, text: &[u8]) -> Option<Automaton> {
    let (tree, _) = read(rt.alloc(), Syntax::Extended, text).ok()?;
    ask(rt.alloc(), REFUSE).ok()?;
    let tree = fold(tree);
    ask(rt.alloc(), WAS_REFUSED).ok()?;
    Automaton::build(rt.alloc(), tree).ok()
}

/// Whether a line of two bytes has a matched stretch that ends at its end.
fn accepts(rt: &HostRuntime, automaton: &Automaton, first: u8, second: u8) -> Option<bool> {
    let mut here = StateSet::blank(rt.alloc(), automaton).ok()?;
    let mut there = StateSet::blank(rt.alloc(), automaton).ok()?;
    let mut meter = fresh_meter();
    ask(rt.alloc(), REFUSE).ok()?;
    automaton.start(&mut here);
    automaton.advance(Mode::Search, &here, first, &mut there, &mut meter);
    here.copy_from(&there);
    automaton.advance(Mode::Search, &here, second, &mut there, &mut meter);
    let accepted = automaton.accepts(Mode::Search, &there, true);
    ask(rt.alloc(), WAS_REFUSED).ok()?;
    Some(accepted)
}

#[test]
fn stepping_takes_no_memory(rt: HostRuntime) {
    let automaton = folded(&rt, b"(^|a)y*[x-z]{1,3}$|([b-d]z)+");
    assert!(rt; automaton.is_some(), "folding takes no memory");
    if let Some(automaton) = automaton {
        assert_eq!(rt; accepts(&rt, &automaton, b'A', b'Z'), Some(true));
        assert_eq!(rt; accepts(&rt, &automaton, b'q', b'z'), Some(false));
    }
}
