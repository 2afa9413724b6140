//! Automata that are stepped.
use re_syntax::{Syntax, read};
use std::test::Fail;

// crates/re_auto/README.md
use re_auto::{Automaton, BuildFault, Mode, StateSet, fresh_meter};
use std::alloc::Global;

/// Whether the whole line is matched.
fn is_whole(alloc: Global, automaton: &Automaton, line: &[u8]) -> Result<bool, BuildFault> {
    let mut meter = fresh_meter();
    let mut now = StateSet::blank(alloc, automaton)?;
    let mut next = StateSet::blank(alloc, automaton)?;
    automaton.start(&mut now);
    for byte in line {
        automaton.advance(Mode::Whole, &now, *byte, &mut next, &mut meter);
        now.copy_from(&next);
    }
    Ok(automaton.accepts(Mode::Whole, &now, true))
}
// end

#[test]
fn whole_lines_are_matched(rt: HostRuntime) -> Result<(), Fail> {
    let (tree, _) = read(rt.alloc(), Syntax::Extended, b"a+b*|c")?;
    let automaton = Automaton::build(rt.alloc(), tree)?;
    assert!(rt; is_whole(rt.alloc(), &automaton, b"aab") == Ok(true));
    assert!(rt; is_whole(rt.alloc(), &automaton, b"b") == Ok(false));
    Ok(())
}
