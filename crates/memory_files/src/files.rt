//! Files in memory, for tests of searches and of whole commands.
ghost use Rattle.std.specs.Prelude.{◌≡◌, length, MatchOption, option_map, option_copied, find};
ghost use Rattle.std.specs.Prelude.{bytes_eq};
ghost use Rattle.grep_core.specs.{Counted.one_more, Run.count_more};
ghost use Rattle.memory_files.specs.Working.Memory.{content_named, fresh_reader, next_count};
ghost use Rattle.memory_files.specs.Working.Memory.{IsSameHistory};

use grep_core::{CountedRead, Sources};
use grep_utility::Files;

/// What reads bytes in memory. Each read fails once as many bytes were read as the content allows,
/// and none before that.
#[derive(Drop)]
pub struct MemoryReader<'a> {
    rest: &'a [u8],
    step: usize,
    left: usize,
    failures: u64,
}

impl MemoryReader<'_> {
    /// How many bytes the next read moves, with room for this many.
    fn next_count(&self, room: usize) -> usize
        ensures { result ≡ next_count room self.now.step self.now.left (length self.now.rest.now) }
    {
        room.min(self.step).min(self.left).min(self.rest.len())
    }
}

impl CountedRead for MemoryReader<'_> {
    ghost use Rattle.memory_files.specs.Working.Memory.{bytes_left};

    ghost remaining = { bytes_left };

    ghost failures = { λ r. r.failures };

    fn pull(&mut self, into: &mut [u8]) -> Option<usize> {
        if self.left == 0 || self.failures > 0 {
            self.failures = self.failures.saturating_add(1);
            return None;
        }
        let n = self.next_count(into.len());
        into[..n].copy_from_slice(&self.rest[..n]);
        self.rest = &self.rest[n..];
        self.left -= n;
        Some(n)
    }

    fn failures(&self) -> u64 {
        self.failures
    }
}

/// Bytes in memory, and how far they are read.
#[derive(Clone, Copy, Debug, Drop)]
pub struct Content<'a> {
    pub bytes: &'a [u8],
    /// The most bytes that one read returns.
    pub step: usize,
    /// How many bytes are read before each further read fails.
    pub left: usize,
}

impl<'a> Content<'a> {
    /// Bytes that are read to their end.
    pub fn new(bytes: &'a [u8]) -> Content<'a>
        ensures { result ≡ record { bytes = bytes.entry; step = usize.MAX; left = usize.MAX } }
    {
        Content {
            bytes,
            step: usize::MAX,
            left: usize::MAX,
        }
    }

    /// A reader of the bytes; none of its reads has failed.
    fn reader(self) -> MemoryReader<'a>
        ensures { result ≡ fresh_reader self.entry }
    {
        MemoryReader {
            rest: self.bytes,
            step: self.step,
            left: self.left,
            failures: 0,
        }
    }
}

/// A file in memory.
#[derive(Clone, Copy, Debug, Drop)]
pub struct MemoryFile<'a> {
    pub name: &'a str,
    /// `None` says that the file cannot be opened.
    pub content: Option<Content<'a>>,
}

/// Files in memory, and standard input. As [`Files`] they are opened by name: the first of several
/// of one name. A name that is not among them cannot be opened. As [`Sources`] they are the list of
/// the files in order, without standard input.
#[derive(Debug, Drop)]
pub struct MemoryFiles<'f, 'a> {
    pub files: &'f [MemoryFile<'a>],
    /// What standard input has left.
    pub input: Content<'a>,
    /// How many attempts to open a file, and reads of returned readers, have failed.
    pub failed: u64,
    /// How many readers were returned.
    pub returned: u64,
    /// How many reads of returned readers have failed.
    pub broken: u64,
}

impl<'f, 'a> MemoryFiles<'f, 'a> {
    /// These files, and this standard input, before anything is used.
    pub fn new(files: &'f [MemoryFile<'a>], input: Content<'a>) -> MemoryFiles<'f, 'a>
        ensures { result ≡ record {
          files = files.entry;
          input = input.entry;
          failed = 0;
          returned = 0;
          broken = 0;
        } }
    {
        MemoryFiles {
            files,
            input,
            failed: 0,
            returned: 0,
            broken: 0,
        }
    }

    /// A reader of the content. `None` says that there is none, which is counted as a failure.
    fn open_content(&mut self, content: Option<Content<'a>>) -> Option<MemoryReader<'a>>
        ensures files { self.new.files ≡ self.old.files }
        ensures input { self.new.input ≡ self.old.input }
        ensures none_back { IsSameHistory self.old self.new }
        ensures counted { MatchOption content.entry (self.new.failed ≡ one_more self.old.failed)
            (λ _. self.new.failed ≡ self.old.failed) }
        ensures opened { result ≡ option_map fresh_reader content.entry }
    {
        if content.is_none() {
            self.failed = self.failed.saturating_add(1);
        }
        Some(content?.reader())
    }

    /// Counts a reader that is returned, and its failures.
    #[tactic(auto, using(crate::proofs::lemmas::CountLemmas::many_counted))]
    fn count_failures(&mut self, reader: MemoryReader<'a>)
        ensures files { self.new.files ≡ self.old.files }
        ensures input { self.new.input ≡ self.old.input }
        ensures returned { self.new.returned ≡ one_more self.old.returned }
        ensures broken { self.new.broken ≡ count_more self.old.broken reader.entry.failures }
        ensures counted { self.new.failed ≡ count_more self.old.failed reader.entry.failures }
    {
        let failures = reader.failures();
        self.returned = self.returned.saturating_add(1);
        self.broken = self.broken.saturating_add(failures);
        self.failed = self.failed.saturating_add(failures);
    }
}

/// The first file of this name.
fn file_named<'f, 'a>(files: &'f [MemoryFile<'a>], name: &str) -> Option<&'f MemoryFile<'a>>
    ensures { option_copied result ≡ find (λ file. bytes_eq file.name.now name.now) files.now }
{
    files.iter().find(|file| file.name == name)
}

/// The content of the first file of this name.
fn content_named<'a>(files: &[MemoryFile<'a>], name: &str) -> Option<Content<'a>>
    ensures { result ≡ content_named files.now name.now }
{
    match file_named(files, name) {
        Some(file) => file.content,
        None => None,
    }
}

impl<'a> Files for MemoryFiles<'_, 'a> {
    ghost use Rattle.memory_files.specs.Working.Memory.{folder_of, returned_by};

    type Reader = MemoryReader<'a>;

    ghost folder = { λ m. folder_of m.files.now m.input };

    ghost failures = { λ m. m.failed };

    ghost returned_readers = { returned_by };

    #[tactic(auto, using(crate::proofs::lemmas::MemoryLemmas::same_history))]
    fn standard(&mut self) -> MemoryReader<'a> {
        let reader = self.input.reader();
        self.input = Content::new(b"");
        reader
    }

    #[tactic(auto, using(crate::proofs::lemmas::MemoryLemmas::same_history))]
    fn open(&mut self, name: &str) -> Option<MemoryReader<'a>> {
        let content = content_named(self.files, name);
        self.open_content(content)
    }

    fn close(&mut self, reader: MemoryReader<'a>) {
        self.count_failures(reader);
    }

    fn failures(&self) -> u64 {
        self.failed
    }
}

impl<'a> Sources for MemoryFiles<'_, 'a> {
    ghost use Rattle.std.specs.Prelude.{map};
    ghost use Rattle.memory_files.specs.Working.Memory.{source_of, returned_by};

    type Reader = MemoryReader<'a>;

    ghost listed = { λ m. map source_of m.files.now };

    ghost failures = { λ m. m.failed };

    ghost returned_readers = { returned_by };

    fn count(&self) -> usize {
        self.files.len()
    }

    fn name(&self, k: usize) -> &[u8] {
        self.files[k].name.as_bytes()
    }

    #[tactic(auto, using(crate::proofs::lemmas::MemoryLemmas::same_history))]
    fn open(&mut self, k: usize) -> Option<MemoryReader<'a>> {
        let content = self.files[k].content;
        self.open_content(content)
    }

    fn close(&mut self, reader: MemoryReader<'a>) {
        self.count_failures(reader);
    }

    fn failures(&self) -> u64 {
        self.failed
    }
}
