//! Patterns that are read as strings.
use re_search::{Syntax, read_pattern};
use std::alloc::{AllocError, Global};
use std::process::Abort;

// A text, and the strings that it is read as, as a basic and as an extended expression, each with a
// newline after it; `None` if it is not read so.
type Row = (&'static [u8], Option<&'static [u8]>, Option<&'static [u8]>);

static ROWS: [Row; 16] = [
    (b"", Some(b"\n"), Some(b"\n")),
    (b"a", Some(b"a\n"), Some(b"a\n")),
    (b"a]b}c-d,e", Some(b"a]b}c-d,e\n"), Some(b"a]b}c-d,e\n")),
    (b"a+b", Some(b"a+b\n"), None),
    (b"*a", Some(b"*a\n"), None),
    (b"a.b", None, None),
    (b"a\\.b", Some(b"a.b\n"), Some(b"a.b\n")),
    (b"[a]b", Some(b"ab\n"), Some(b"ab\n")),
    (b"[ab]c", None, None),
    (b"ab|c|de", Some(b"ab|c|de\n"), Some(b"ab\nc\nde\n")),
    (b"(ab|cd)", Some(b"(ab|cd)\n"), Some(b"ab\ncd\n")),
    (b"(ab|cd)e", Some(b"(ab|cd)e\n"), None),
    (b"ab|c.d", None, None),
    (b"ab|cd*", None, None),
    (b"ab|cd$", None, None),
    (b"ab|^cd", Some(b"ab|^cd\n"), None),
];

fn rows() -> &'static [Row] {
    &ROWS
}

// The strings of the text after a string that is there.
fn strings_of(alloc: Global, text: &[u8], syntax: Syntax) -> Result<Option<Vec<u8>>, AllocError> {
    let mut strings = Vec::new(alloc);
    strings.extend_from_slice(b"x\n")?;
    let Ok(pattern) = read_pattern(alloc, text, syntax, false) else {
        return Ok(None);
    };
    match pattern.add_strings(alloc, &mut strings) {
        Some(()) => Ok(Some(strings)),
        None => Ok(None),
    }
}

fn assert_strings(
    rt: &impl Abort,
    alloc: Global,
    text: &[u8],
    syntax: Syntax,
    wanted: Option<&[u8]>,
) {
    let found = match strings_of(alloc, text, syntax) {
        Ok(found) => found,
        Err(_) => panic!(rt; "out of memory"),
    };
    match wanted {
        Some(strings) => {
            let found = found.expect(rt, "strings");
            assert_eq!(rt; found.strip_prefix(b"x\n"), Some(strings), "{text:?}");
        }
        None => assert!(rt; found.is_none(), "{text:?}"),
    }
}

#[test]
fn patterns_are_read_as_strings(rt: HostRuntime) {
    for row in rows() {
        let (text, basic, extended) = *row;
        assert_strings(&rt, rt.alloc(), text, Syntax::Basic, basic);
        assert_strings(&rt, rt.alloc(), text, Syntax::Extended, extended);
    }
}
