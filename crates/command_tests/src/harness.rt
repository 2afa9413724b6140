//! Files, devices and runs for the tests of searches and commands.
ghost use Rattle.re_search.specs.Working.Matchers.{AreAlike};

use crate::marks::{refuse, was_refused};
use grep_cmd::{Matchers, PatternSource, Request, read_words, run_grep, searchers_of};
use grep_core::{
    CountedWrite, Limited, RunFault, SearchRequest, Sources, Status, Tally, search_all,
};
use memory_files::{Content, MemoryFile, MemoryFiles};
use re_auto::fresh_meter;
use std::alloc::{AllocError, Global};
use std::process::Abort;
use std::test::Fail;

/// A command by its words, with a space between each two; its standard input; its output; its
/// messages; its exit status.
pub type Row<'a> = (&'a str, &'static [u8], &'static [u8], &'a str, u8);

/// The most bytes that a read or a write moves, and how many are written before each further write
/// fails.
#[derive(Clone, Copy)]
pub struct Limits {
    pub step: usize,
    pub output: usize,
    pub messages: usize,
}

pub const UNLIMITED: Limits = Limits {
    step: usize::MAX,
    output: usize::MAX,
    messages: usize::MAX,
};

/// What a run gave: its answer, its output and its messages.
#[derive(Drop)]
pub struct Outcome<T> {
    pub answer: T,
    pub output: Vec<u8>,
    pub messages: Vec<u8>,
}

/// The output and the messages of a run.
#[derive(Drop)]
pub struct Devices {
    pub out: Tally<Limited<Vec<u8>>>,
    pub messages: Tally<Limited<Vec<u8>>>,
}

impl Devices {
    /// Devices with these limits, on which nothing was written.
    pub fn new(alloc: Global, limits: Limits) -> Devices {
        Devices {
            out: Tally::new(Limited::new(Vec::new(alloc), limits.step, limits.output)),
            messages: Tally::new(Limited::new(Vec::new(alloc), limits.step, limits.messages)),
        }
    }

    /// Devices that ask for no memory for the first bytes that are written on each.
    pub fn roomy(alloc: Global) -> Result<Devices, AllocError> {
        let out = Vec::with_capacity(alloc, 4_096)?;
        let messages = Vec::with_capacity(alloc, 4_096)?;
        Ok(Devices {
            out: Tally::new(Limited::new(out, UNLIMITED.step, UNLIMITED.output)),
            messages: Tally::new(Limited::new(messages, UNLIMITED.step, UNLIMITED.messages)),
        })
    }

    /// What was written on them in a run with this answer.
    pub fn outcome<T>(self, answer: T) -> Outcome<T> {
        let Devices { out, messages } = self;
        Outcome {
            answer,
            output: out.into_inner().into_inner(),
            messages: messages.into_inner().into_inner(),
        }
    }
}

/// A file that can be read to its end.
pub fn file<'a>(name: &'a str, bytes: &'a [u8]) -> MemoryFile<'a> {
    MemoryFile {
        name,
        content: Some(Content::new(bytes)),
    }
}

/// A file whose reads fail once all its bytes were read.
pub fn broken_file<'a>(name: &'a str, bytes: &'a [u8]) -> MemoryFile<'a> {
    let left = bytes.len();
    MemoryFile {
        name,
        content: Some(Content {
            left,
            ..Content::new(bytes)
        }),
    }
}

/// The files that the rows name.
pub fn folder() -> [MemoryFile<'static>; 4] {
    [
        file("f", b"a\nba\n"),
        broken_file("g", b"ab\na"),
        file("h", b"aba\n"),
        file("k", b"b\na\n"),
    ]
}

/// The words of a line, with a space between each two.
pub fn words_of(alloc: Global, line: &str) -> Result<Vec<String>, AllocError> {
    line.split(' ')
        .map(|word| String::from_str(alloc, word))
        .try_collect(alloc)
}

/// Runs a command.
pub fn commanded<'a>(
    alloc: Global,
    line: &str,
    files: &[MemoryFile<'a>],
    input: Content<'a>,
    limits: Limits,
) -> Result<Outcome<u8>, AllocError> {
    let words = words_of(alloc, line)?;
    let mut memory = MemoryFiles::new(files, input);
    let mut devices = Devices::new(alloc, limits);
    let status = run_grep(
        alloc,
        &words,
        &mut memory,
        &mut devices.out,
        &mut devices.messages,
        &mut fresh_meter(),
    );
    Ok(devices.outcome(status))
}

/// The patterns of the lists, each followed by a newline.
fn pattern_lines(alloc: Global, request: &Request) -> Result<Vec<u8>, AllocError> {
    let mut lines = Vec::new(alloc);
    for source in &request.sources {
        if let PatternSource::List(list) = source {
            lines.extend_from_slice(list.as_bytes())?;
            lines.push(b'\n')?;
        }
    }
    Ok(lines)
}

/// The sources that the words name.
fn named<'a>(
    alloc: Global,
    words: &'a [String],
    files: &[MemoryFile<'a>],
    input: Content<'a>,
) -> Result<Vec<MemoryFile<'a>>, AllocError> {
    let standard = MemoryFile {
        name: "(standard input)",
        content: Some(input),
    };
    let mut sources = Vec::new(alloc);
    if words.is_empty() {
        sources.push(standard)?;
    }
    for word in words {
        let missing = MemoryFile {
            name: word,
            content: None,
        };
        let found = files.iter().find(|file| file.name == word.as_str());
        sources.push(*found.unwrap_or(&missing))?;
    }
    Ok(sources)
}

/// Searches while the N-th request for memory of the search is refused, none where N is 0; whether
/// one was.
pub fn searched_without<'a>(
    alloc: Global,
    line: &str,
    files: &'a [MemoryFile<'a>],
    input: Content<'a>,
    devices: Devices,
    n: usize,
) -> Result<(Outcome<Result<Status, RunFault>>, bool), Fail> {
    let mut devices = devices;
    let words = words_of(alloc, line)?;
    let request = read_words(alloc, &words)?;
    let texts = pattern_lines(alloc, &request)?;
    let mut matchers = searchers_of(alloc, &texts, request.syntax, &request.options)?;
    let sources = named(alloc, &request.files, files, input)?;
    let mut memory = MemoryFiles::new(&sources, Content::new(b""));
    refuse(alloc, n)?;
    let search = SearchRequest {
        alloc,
        options: request.options,
    };
    let answer = search_by(&search, &mut memory, &mut matchers, &mut devices);
    let refused = was_refused(alloc);
    Ok((devices.outcome(answer), refused))
}

// `search_all`, for sources whose type has lifetimes: see `Matchers`.
fn search_by<S: Sources, L: Matchers>(
    search: &SearchRequest,
    sources: &mut S,
    matchers: &mut L,
    devices: &mut Devices,
) -> Result<Status, RunFault>
    requires in_order { S.stands_at sources.old 0 }
    requires alike { AreAlike search.now.options.line_regexp (L.items matchers.old) }
{
    search_all(
        search,
        sources,
        matchers.lend(),
        &mut devices.out,
        &mut devices.messages,
        &mut fresh_meter(),
    )
}

/// Compares what a run of this line wrote; the place is one more number that identifies the run.
pub fn assert_written<T>(
    rt: &impl Abort,
    run: &Outcome<T>,
    output: &[u8],
    messages: &[u8],
    line: &str,
    place: usize,
) {
    assert_eq!(rt; run.output.as_slice(), output, "{line}, {place}");
    assert_eq!(rt; run.messages.as_slice(), messages, "{line}, {place}");
}

/// Runs the command of a row, and compares what it gives.
pub fn assert_command(
    rt: &impl Abort,
    alloc: Global,
    row: Row,
    files: &[MemoryFile<'static>],
    step: usize,
) -> Result<(), Fail> {
    let (line, bytes, output, messages, status) = row;
    let content = Content::new(bytes);
    let input = Content { step, ..content };
    let command = commanded(alloc, line, files, input, UNLIMITED)?;
    assert_eq!(rt; command.answer, status, "{line}");
    assert_written(rt, &command, output, messages.as_bytes(), line, step);
    Ok(())
}
