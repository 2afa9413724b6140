//! The files that a command searches (XCU grep, OPERANDS).
ghost use Rattle.std.specs.Prelude.{◌≡◌, ◌<◌, [], get_or, length};
ghost use Rattle.grep_utility.specs.{Folder.searched, Words.texts_of};

use crate::files::{Files, display_name, open_named};
use grep_core::Sources;
use std::snapshot::Snapshot;

/// The files that words name, as sources: standard input where there is no word.
pub struct Operands<'a, F: Files> {
    files: &'a mut F,
    words: &'a [String],
    /// The files before any of these was opened.
    start: Snapshot<F>,
}

impl<'a, F: Files> Operands<'a, F> {
    /// The files that the words name, none of which was opened.
    pub fn new(files: &'a mut F, words: &'a [String]) -> Operands<'a, F>
        ensures files { result.files ≡ files.entry }
        ensures words { result.words ≡ words.entry }
        ensures start { result.start.value ≡ files.entry.now }
    {
        let start = Snapshot::of(&*files);
        Operands {
            files,
            words,
            start,
        }
    }

    /// The files.
    pub fn into_files(self) -> &'a mut F
        ensures { result ≡ self.entry.files }
    {
        let Operands {
            files,
            words: _,
            start: _,
        } = self;
        files
    }
}

/// How many words name what is searched.
fn word_count(words: &[String]) -> usize
    ensures { result ≡ length (searched (texts_of words.now)) }
{
    if words.is_empty() {
        return 1;
    }
    words.len()
}

/// The word at place `k` of those that name what is searched.
fn word_at(words: &[String], k: usize) -> &str
    requires { k < length (searched (texts_of words.now)) }
    ensures { result.now ≡ get_or (searched (texts_of words.now)) k [] }
{
    match words.get(k) {
        Some(word) => word,
        None => "-",
    }
}

impl<F: Files> Sources for Operands<'_, F> {
    ghost use Rattle.grep_utility.specs.Folder.{searched, sources_named};
    ghost use Rattle.grep_utility.specs.Working.Operands.{StandsAt};
    ghost use Rattle.grep_utility.specs.Words.{texts_of};

    type Reader = F::Reader;

    ghost listed = { λ o.
        sources_named (F.folder o.start.value) (searched (texts_of o.words.now)) };

    ghost failures = { λ o. F.failures o.files.now };

    ghost returned_readers = { λ o left. F.returned_readers o.files.now left };

    ghost stands_at = { λ o k.
        StandsAt (F.folder o.start.value) (F.folder o.files.now)
        (searched (texts_of o.words.now)) k };

    ghost loan = { λ o. o.files.ghost_name };

    fn count(&self) -> usize {
        word_count(self.words)
    }

    fn name(&self, k: usize) -> &[u8] {
        display_name(word_at(self.words, k))
    }

    fn open(&mut self, k: usize) -> Option<F::Reader> {
        open_named(&mut *self.files, word_at(self.words, k))
    }

    fn close(&mut self, reader: F::Reader) {
        self.files.close(reader);
    }

    fn failures(&self) -> u64 {
        self.files.failures()
    }
}
