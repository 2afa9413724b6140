//! Sessions whose rows were worked out by hand, with their steps.
use super::edits::Answer;
use super::edits::Edit::{
    AddFile, AddMissing, AddPatterns, ChangePattern, DropFile, DropPattern, SetContext, SetFlag,
    SetSyntax, Splice,
};
use super::harness::{
    ANY, DONE, FILE_IS_MISSING, LINE_HAS_NEWLINE, NO_SUCH_FILE, OUT_OF_RANGE, Row,
};
use grep_core::Context;
use grep_core::Flag::{IgnoreCase, InvertMatch, LineNumber, LineRegexp, OnlyMatching};
use grep_session::EditFault;
use re_search::Syntax::{Extended, Fixed};
use re_syntax::{FaultKind, PatternFault};

const NO_SUCH_PATTERN: Answer = Err(EditFault::NoSuchPattern);

const UNCLOSED_GROUP: Answer = Err(EditFault::Pattern(
    0,
    PatternFault {
        kind: FaultKind::UnclosedGroup,
        at: 0,
    },
));

const UNCLOSED_BRACKET: Answer = Err(EditFault::Pattern(
    0,
    PatternFault {
        kind: FaultKind::UnclosedBracket,
        at: 0,
    },
));

/// Only the line that is added is searched.
static ONE_LINE_COMES: [Row; 3] = [
    (AddFile("f", b"ab\nc\n"), DONE, b"", b"", 1, 0),
    (AddPatterns(b"a"), DONE, b"ab\n", b"", 0, 5),
    (Splice(0, 1, 1, b"ca\n"), DONE, b"ab\nca\n", b"", 0, 3),
];

/// What is no extended expression leaves the session as it was.
static ANOTHER_SYNTAX: [Row; 3] = [
    (AddFile("f", b"a(\n"), DONE, b"", b"", 1, 0),
    (AddPatterns(b"("), DONE, b"a(\n", b"", 0, 3),
    (SetSyntax(Extended), UNCLOSED_GROUP, b"a(\n", b"", 0, 0),
];

/// All lines are searched anew where the patterns mean something else.
static MEANINGS: [Row; 6] = [
    (AddFile("f", b"A+\naa\n"), DONE, b"", b"", 1, 0),
    (AddPatterns(b"a+"), DONE, b"", b"", 1, 6),
    (SetFlag(IgnoreCase, true), DONE, b"A+\n", b"", 0, 6),
    (SetSyntax(Extended), DONE, b"A+\naa\n", b"", 0, 6),
    (SetSyntax(Fixed), DONE, b"A+\n", b"", 0, 6),
    (SetFlag(IgnoreCase, false), DONE, b"", b"", 1, 6),
];

/// A search by two patterns costs twice a line's length and one, and the search for its parts costs
/// that once more.
static TOUCHED: [Row; 14] = [
    (AddFile("f", b"aa\nb\nca\n"), DONE, b"", b"", 1, 0),
    (AddPatterns(b"a\nb"), DONE, b"aa\nb\nca\n", b"", 0, 16),
    (SetFlag(InvertMatch, true), DONE, b"", b"", 1, 0),
    (SetFlag(InvertMatch, false), DONE, b"aa\nb\nca\n", b"", 0, 0),
    (
        SetFlag(LineNumber, true),
        DONE,
        b"1:aa\n2:b\n3:ca\n",
        b"",
        0,
        0,
    ),
    (
        SetFlag(OnlyMatching, true),
        DONE,
        b"1:a\n1:a\n2:b\n3:a\n",
        b"",
        0,
        16,
    ),
    (DropPattern(1), DONE, b"1:a\n1:a\n3:a\n", b"", 0, 2),
    (AddPatterns(b"c"), DONE, b"1:a\n1:a\n3:c\n3:a\n", b"", 0, 14),
    (
        SetFlag(OnlyMatching, true),
        DONE,
        b"1:a\n1:a\n3:c\n3:a\n",
        b"",
        0,
        0,
    ),
    (
        SetFlag(OnlyMatching, false),
        DONE,
        b"1:aa\n3:ca\n",
        b"",
        0,
        0,
    ),
    (SetFlag(LineRegexp, true), DONE, b"", b"", 1, 16),
    (Splice(0, 1, 1, b"xyz\n"), DONE, b"", b"", 1, 8),
    (AddPatterns(b"["), UNCLOSED_BRACKET, b"", b"", 1, 0),
    (DropFile(0), DONE, b"", b"", 1, 0),
];

/// Only the lines are searched that have to be, by the new pattern alone; under `-o` for the parts
/// of those that the old or the new one matches.
static ANOTHER_PATTERN: [Row; 9] = [
    (AddFile("f", b"ab\nbc\nca\n"), DONE, b"", b"", 1, 0),
    (AddPatterns(b"b\nc"), DONE, b"ab\nbc\nca\n", b"", 0, 18),
    (ChangePattern(1, "ca*"), DONE, b"ab\nbc\nca\n", b"", 0, 9),
    (ChangePattern(1, "ca*"), DONE, b"ab\nbc\nca\n", b"", 0, 0),
    (ChangePattern(0, "x"), DONE, b"bc\nca\n", b"", 0, 9),
    (
        ChangePattern(2, "x"),
        NO_SUCH_PATTERN,
        b"bc\nca\n",
        b"",
        0,
        0,
    ),
    (
        ChangePattern(0, "["),
        UNCLOSED_BRACKET,
        b"bc\nca\n",
        b"",
        0,
        0,
    ),
    (SetFlag(OnlyMatching, true), DONE, b"c\nca\n", b"", 0, 12),
    (ChangePattern(1, "a"), DONE, b"a\na\n", b"", 0, 21),
];

/// A string that has the one before in it is looked for in the lines of that alone, and another in
/// all lines.
static A_WORD_IS_TYPED: [Row; 8] = [
    (AddFile("f", b"xa\nbab\nabc\nAbx\n"), DONE, b"", b"", 1, 0),
    (SetSyntax(Fixed), DONE, b"", b"", 1, 0),
    (AddPatterns(b"a"), DONE, b"xa\nbab\nabc\n", b"", 0, 15),
    (ChangePattern(0, "ab"), DONE, b"bab\nabc\n", b"", 0, 11),
    (ChangePattern(0, "abc"), DONE, b"abc\n", b"", 0, 8),
    (ChangePattern(0, "xabcx"), DONE, b"", b"", 1, 4),
    (ChangePattern(0, "xabcxy"), DONE, b"", b"", 1, 1),
    (ChangePattern(0, "b"), DONE, b"bab\nabc\nAbx\n", b"", 0, 15),
];

/// So it is in both cases, inverted, and for parts. Under `-x` it may match other lines.
static TYPED_WITH_FLAGS: [Row; 12] = [
    (AddFile("f", b"xa\nbab\nabc\nAbx\n"), DONE, b"", b"", 1, 0),
    (SetSyntax(Fixed), DONE, b"", b"", 1, 0),
    (SetFlag(IgnoreCase, true), DONE, b"", b"", 1, 0),
    (AddPatterns(b"b"), DONE, b"bab\nabc\nAbx\n", b"", 0, 15),
    (SetFlag(InvertMatch, true), DONE, b"xa\n", b"", 0, 0),
    (ChangePattern(0, "ab"), DONE, b"xa\n", b"", 0, 12),
    (
        SetFlag(InvertMatch, false),
        DONE,
        b"bab\nabc\nAbx\n",
        b"",
        0,
        0,
    ),
    (
        SetFlag(OnlyMatching, true),
        DONE,
        b"ab\nab\nAb\n",
        b"",
        0,
        12,
    ),
    (ChangePattern(0, "abx"), DONE, b"Abx\n", b"", 0, 16),
    (SetFlag(LineRegexp, true), DONE, b"Abx\n", b"", 0, 19),
    (ChangePattern(0, "ab"), DONE, b"", b"", 1, 15),
    (ChangePattern(0, "bab"), DONE, b"bab\n", b"", 0, 19),
];

/// Branches and repetitions of basic expressions have their parts.
static BRANCHES: [Row; 3] = [
    (AddFile("f", b"ab\n"), DONE, b"", b"", 1, 0),
    (AddPatterns(b"a\\+\\|c"), DONE, b"ab\n", b"", 0, 3),
    (SetFlag(OnlyMatching, true), DONE, b"a\n", b"", 0, ANY),
];

/// Parts that are kept stay with their lines, through splices and files that are dropped.
static PARTS: [Row; 12] = [
    (SetSyntax(Extended), DONE, b"", b"", 1, ANY),
    (SetFlag(OnlyMatching, true), DONE, b"", b"", 1, ANY),
    (SetFlag(LineNumber, true), DONE, b"", b"", 1, 0),
    (AddPatterns(b"ab|abcd|bc"), DONE, b"", b"", 1, 0),
    (AddFile("f", b"xabcde\n"), DONE, b"1:abcd\n", b"", 0, 14),
    (
        AddFile("g", b"abab\nx\nbc\n"),
        DONE,
        b"f:1:abcd\ng:1:ab\ng:1:ab\ng:3:bc\n",
        b"",
        0,
        ANY,
    ),
    (
        Splice(1, 0, 0, b"bcab\n"),
        DONE,
        b"f:1:abcd\ng:1:bc\ng:1:ab\ng:2:ab\ng:2:ab\ng:4:bc\n",
        b"",
        0,
        10,
    ),
    (
        Splice(1, 1, 2, b""),
        DONE,
        b"f:1:abcd\ng:1:bc\ng:1:ab\ng:2:bc\n",
        b"",
        0,
        0,
    ),
    (DropFile(0), DONE, b"1:bc\n1:ab\n2:bc\n", b"", 0, 0),
    (AddPatterns(b"b"), DONE, b"1:bc\n1:ab\n2:bc\n", b"", 0, ANY),
    (DropPattern(0), DONE, b"1:b\n1:b\n2:b\n", b"", 0, 8),
    (Splice(0, 0, 1, b""), DONE, b"1:b\n", b"", 0, 0),
];

/// All parts of a line cost one search of it, though a search for each goes on to the line's end.
static LINEAR: [Row; 4] = [
    (SetSyntax(Extended), DONE, b"", b"", 1, 0),
    (SetFlag(OnlyMatching, true), DONE, b"", b"", 1, 0),
    (AddPatterns(b"a|a*[bc]"), DONE, b"", b"", 1, 0),
    (
        AddFile("f", b"aaaaaaaaaaaaaaaaaaaaaaaa\n"),
        DONE,
        b"a\na\na\na\na\na\na\na\na\na\na\na\na\na\na\na\na\na\na\na\na\na\na\na\n",
        b"",
        0,
        50,
    ),
];

const BEHIND: Option<Context> = Some(Context {
    before: 0,
    after: 1,
});

const BEFORE: Option<Context> = Some(Context {
    before: 2,
    after: 0,
});

const NONE_AROUND: Option<Context> = Some(Context {
    before: 0,
    after: 0,
});

/// Lines around selected ones are shown, also where lines are removed.
static ONE_FILE: [Row; 10] = [
    (AddFile("h", b"a\nb\nc\nd\ne\nf\na\n"), DONE, b"", b"", 1, 0),
    (AddPatterns(b"a"), DONE, b"a\na\n", b"", 0, ANY),
    (SetFlag(LineNumber, true), DONE, b"1:a\n7:a\n", b"", 0, 0),
    (SetContext(BEHIND), DONE, b"1:a\n2-b\n--\n7:a\n", b"", 0, 0),
    (
        SetContext(BEFORE),
        DONE,
        b"1:a\n--\n5-e\n6-f\n7:a\n",
        b"",
        0,
        0,
    ),
    (SetContext(NONE_AROUND), DONE, b"1:a\n--\n7:a\n", b"", 0, 0),
    (SetContext(BEHIND), DONE, b"1:a\n2-b\n--\n7:a\n", b"", 0, 0),
    (Splice(0, 2, 4, b""), DONE, b"1:a\n2-b\n3:a\n", b"", 0, 0),
    (SetContext(None), DONE, b"1:a\n3:a\n", b"", 0, 0),
    (SetContext(None), DONE, b"1:a\n3:a\n", b"", 0, 0),
];

const CANNOT_OPEN: &[u8] = b"grep: m: cannot open\n";

/// A line with a newline, which a bar means, is refused before the session is asked.
static NEWLINES: [Row; 8] = [
    (AddFile("f", b"a\nb|c\n"), LINE_HAS_NEWLINE, b"", b"", 1, 0),
    (AddMissing("m"), DONE, b"", CANNOT_OPEN, 2, 0),
    (
        Splice(0, 5, 0, b"a\n"),
        FILE_IS_MISSING,
        b"",
        CANNOT_OPEN,
        2,
        0,
    ),
    (
        Splice(1, 0, 0, b"a\n"),
        NO_SUCH_FILE,
        b"",
        CANNOT_OPEN,
        2,
        0,
    ),
    (AddFile("f", b"a\nb\n"), DONE, b"", CANNOT_OPEN, 2, 0),
    (
        Splice(1, 3, 0, b"x\n"),
        OUT_OF_RANGE,
        b"",
        CANNOT_OPEN,
        2,
        0,
    ),
    (
        Splice(1, 0, 1, b"a\ny|z\n"),
        LINE_HAS_NEWLINE,
        b"",
        CANNOT_OPEN,
        2,
        0,
    ),
    (
        Splice(1, 2, 0, b"|\n"),
        LINE_HAS_NEWLINE,
        b"",
        CANNOT_OPEN,
        2,
        0,
    ),
];

/// The sessions.
pub fn sessions() -> [&'static [Row]; 12] {
    [
        &ONE_LINE_COMES,
        &ANOTHER_SYNTAX,
        &MEANINGS,
        &TOUCHED,
        &ANOTHER_PATTERN,
        &A_WORD_IS_TYPED,
        &TYPED_WITH_FLAGS,
        &BRANCHES,
        &PARTS,
        &LINEAR,
        &ONE_FILE,
        &NEWLINES,
    ]
}
