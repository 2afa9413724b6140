//! Words and searches, while each allocation fails in turn.
//!
//! Where no library refuses requests, as tools/refuse_growths.sh has it, each is granted, and each
//! row is tried once.
use crate::harness::{
    Devices, Outcome, assert_written, broken_file, file, searched_without, words_of,
};
use crate::marks::{refuse, was_refused};
use grep_cmd::{UsageFault, read_words};
use grep_core::{RunFault, Status};
use memory_files::{Content, MemoryFile};
use std::alloc::{AllocError, Global};
use std::process::Abort;
use std::test::Fail;

/// How many requests a row makes at most.
const MOST: usize = 2_000;

/// What a search writes for one source: the output of each line, that at its end, and its message.
type Part = (&'static [&'static [u8]], &'static [u8], &'static [u8]);

/// A command, what its search writes for each source, and its answer.
type Row = (&'static str, &'static [Part], Status);

const CANNOT_OPEN: &[u8] = b"grep: nofile: cannot open\n";

const READ_ERROR: &[u8] = b"grep: g: read error\n";

static ROWS: [Row; 6] = [
    (
        "-n b h nofile g f",
        &[
            (&[b"h:1:aba\n", b"", b"h:3:cb\n"], b"", b""),
            (&[], b"", CANNOT_OPEN),
            (&[b"g:1:ab\n"], b"", READ_ERROR),
            (&[b"f:1:b\n", b"", b"f:3:ab\n"], b"", b""),
        ],
        Status::Error,
    ),
    (
        "-o b h f",
        &[
            (&[b"h:b\n", b"", b"h:b\n"], b"", b""),
            (&[b"f:b\n", b"", b"f:b\n"], b"", b""),
        ],
        Status::Selected,
    ),
    (
        "-c -e b -e aba h nofile g f",
        &[
            (&[], b"h:2\n", b""),
            (&[], b"", CANNOT_OPEN),
            (&[], b"g:1\n", READ_ERROR),
            (&[], b"f:2\n", b""),
        ],
        Status::Error,
    ),
    (
        "-l c f h g",
        &[(&[], b"", b""), (&[], b"h\n", b""), (&[], b"", READ_ERROR)],
        Status::Error,
    ),
    (
        "-q c nofile g h f",
        &[
            (&[], b"", CANNOT_OPEN),
            (&[], b"", READ_ERROR),
            (&[], b"", b""),
            (&[], b"", b""),
        ],
        Status::Selected,
    ),
    (
        "-s -v a nofile g f",
        &[
            (&[], b"", b""),
            (&[], b"", b""),
            (&[b"f:b\n", b"f:x\n"], b"", b""),
        ],
        Status::Error,
    ),
];

/// A file whose second line is longer than what one read returns.
fn long_file(alloc: Global) -> Result<Vec<u8>, AllocError> {
    let mut text = Vec::new(alloc);
    text.extend_from_slice(b"aba\n")?;
    text.resize(100_000, b'a')?;
    text.extend_from_slice(b"\ncb\n")?;
    Ok(text)
}

/// What is on standard output and standard error once the first sources were searched, and the
/// first lines of the next one.
fn written(
    alloc: Global,
    parts: &[Part],
    sources: usize,
    lines: usize,
) -> Result<(Vec<u8>, Vec<u8>), AllocError> {
    let mut output = Vec::new(alloc);
    let mut messages = Vec::new(alloc);
    for (rows, end, reported) in parts.iter().take(sources) {
        for row in *rows {
            output.extend_from_slice(row)?;
        }
        output.extend_from_slice(end)?;
        messages.extend_from_slice(reported)?;
    }
    for (rows, _, _) in parts.iter().skip(sources).take(1) {
        for row in rows.iter().take(lines) {
            output.extend_from_slice(row)?;
        }
    }
    Ok((output, messages))
}

/// Compares what a search gave with its row; whether it reported that an allocation failed.
fn assert_answer(
    rt: &impl Abort,
    alloc: Global,
    row: Row,
    search: &Outcome<Result<Status, RunFault>>,
    n: usize,
) -> Result<bool, Fail> {
    let (line, parts, status) = row;
    let (sources, lines, reported) = match search.answer {
        Err(RunFault::Memory { source, lines }) => (source, lines, true),
        answer => {
            assert_eq!(rt; answer, Ok(status), "{line}, {n}");
            (parts.len(), 0, false)
        }
    };
    let lines = usize::try_from(lines)?;
    let (output, messages) = written(alloc, parts, sources, lines)?;
    assert_written(rt, search, &output, &messages, line, n);
    Ok(reported)
}

/// Refuses each request for memory of a row's search in turn, until a run meets no refusal.
fn assert_each_refused(
    rt: &impl Abort,
    alloc: Global,
    files: &[MemoryFile],
    row: Row,
) -> Result<(), Fail> {
    for n in 1..=MOST {
        let devices = Devices::roomy(alloc)?;
        let input = Content::new(b"");
        let (search, refused) = searched_without(alloc, row.0, files, input, devices, n)?;
        let reported = assert_answer(rt, alloc, row, &search, n)?;
        assert!(rt; refused || !reported, "{}, {n}", row.0);
        if !refused {
            return Ok(());
        }
    }
    Err(Fail::from("a search asks for memory again and again"))
}

#[test]
fn searches_without_memory(rt: HostRuntime) -> Result<(), Fail> {
    let text = long_file(rt.alloc())?;
    let folder = [
        file("f", b"b\nx\nab\n"),
        broken_file("g", b"ab\na"),
        file("h", &text),
    ];
    for row in &ROWS {
        assert_each_refused(&rt, rt.alloc(), folder.as_slice(), *row)?;
    }
    Ok(())
}

/// A search of a file whose second line needs memory, and how many lines may be done where it is
/// out of memory: none where the buffer is refused, and else those before the line that is refused,
/// or whose parts are.
static DONE: [(&str, &[u64]); 6] = [
    ("-c b h", &[0, 1]),
    ("-vc b h", &[0, 1]),
    ("-q c h", &[0, 1]),
    ("-l c h", &[0, 1]),
    ("-B 1 c h", &[0, 1, 2]),
    ("-o c h", &[0, 1, 2]),
];

/// Refuses each request of a search in turn; how many lines were done never falls.
fn assert_lines_done(
    rt: &impl Abort,
    alloc: Global,
    files: &[MemoryFile],
    line: &str,
    done: &[u64],
) -> Result<(), Fail> {
    let mut before = 0;
    for n in 1..=MOST {
        let devices = Devices::roomy(alloc)?;
        let input = Content::new(b"");
        let (search, refused) = searched_without(alloc, line, files, input, devices, n)?;
        if !refused {
            return Ok(());
        }
        let Err(RunFault::Memory { source, lines }) = search.answer else {
            continue;
        };
        assert_eq!(rt; source, 0, "{line}, {n}");
        assert!(rt;
            done.contains(&lines) && lines >= before,
            "{line}, {n}: {lines}"
        );
        assert!(rt; lines > 0 || n == 1, "{line}, {n}: {lines}");
        before = lines;
    }
    Err(Fail::from("a search asks for memory again and again"))
}

#[test]
fn lines_done_without_memory(rt: HostRuntime) -> Result<(), Fail> {
    let text = long_file(rt.alloc())?;
    let folder = [file("h", &text)];
    for (line, done) in &DONE {
        assert_lines_done(&rt, rt.alloc(), folder.as_slice(), line, done)?;
    }
    Ok(())
}

/// Words with many patterns, pattern files and files.
fn many_words(alloc: Global) -> Result<Vec<String>, AllocError> {
    let mut line = String::from_str(alloc, "-n f")?;
    for number in 0..40 {
        line.push_str(" -e pattern -ivef -f patterns file")?;
        if number % 8 == 7 {
            line.push_str(" -cxfpatterns -qs")?;
        }
    }
    words_of(alloc, &line)
}

#[test]
fn words_without_memory(rt: HostRuntime) -> Result<(), Fail> {
    let alloc = rt.alloc();
    let words = many_words(alloc)?;
    let wanted = read_words(alloc, &words)?;
    for n in 1..=MOST {
        refuse(alloc, n)?;
        let given = read_words(alloc, &words);
        let refused = was_refused(alloc);
        match given {
            Ok(request) => assert!(rt; request == wanted, "{n}"),
            Err(fault) => {
                assert_eq!(rt; fault, UsageFault::Memory, "{n}");
                assert!(rt; refused, "{n}");
            }
        }
        if !refused {
            return Ok(());
        }
    }
    Err(Fail::from("words ask for memory again and again"))
}
