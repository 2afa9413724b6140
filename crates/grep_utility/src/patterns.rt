//! The patterns of a request (XCU grep, options `-e` and `-f`, and the operand pattern_list).
ghost use Rattle.std.specs.Prelude.{IfErr, ◌≡◌, IfOk, Option, ◌++◌, List, OnErr, [], Err, ◌∷◌, map};
ghost use Rattle.re_syntax.specs.{Bytes.Text, Lines.{newline, lines_of}};
ghost use Rattle.{grep_io.specs.declared.input.lines.Stage.Stage, grep_core.specs.Sources.Returns};
ghost use Rattle.grep_utility.specs.Patterns.{GivesPatterns, folder_after, folder_after_all};
ghost use Rattle.grep_utility.specs.Patterns.{GivePatterns, FirstUnread, OneReaderEach};
ghost use Rattle.grep_utility.specs.{Folder.after_use, Words.file, Working.Tokens.given_source};
ghost use Rattle.grep_utility.specs.Working.CollectedTexts.{AddsLines, AddsSource, StopsFor};

use crate::files::{Files, open_named};
use crate::prepare::CommandFault;
use crate::words::PatternSource;
use grep_core::{CountedRead, Lines, ReadFault};
use std::alloc::{AllocError, Global};

/// Adds a text and a newline.
fn add_text(texts: &mut Vec<u8>, text: &[u8]) -> Result<(), AllocError>
    ensures { IfOk result (λ _. texts.new.items ≡ texts.old.items ++ (text.now ++ newline ∷ [])) }
{
    texts.extend_from_slice(text)?;
    texts.push(b'\n')?;
    Ok(())
}

/// Adds the lines of a reader, and returns whether they are all, which they are not where a read
/// failed or there are more than can be numbered.
fn add_lines<R: CountedRead>(lines: &mut Lines<R>, texts: &mut Vec<u8>) -> Result<bool, AllocError>
    requires none_ahead { lines.old.lines.ahead ≡ [] }
    requires still_open { lines.old.lines.stage ≡ Stage.Open }
    requires none_handed { lines.old.number ≡ 0 }
    ensures ok { IfOk result (λ all. AddsLines
        (R.remaining lines.old.lines.reader) (R.remaining lines.new.lines.reader)
        (R.failures lines.old.lines.reader) (R.failures lines.new.lines.reader)
        texts.old.items texts.new.items all) }
    ensures err { OnErr result
        (R.failures lines.new.lines.reader ≡ R.failures lines.old.lines.reader) }
{
    loop {
        match lines.next_numbered() {
            Ok(true) => add_text(texts, lines.line())?,
            Ok(false) => return Ok(true),
            Err(ReadFault::Device) => return Ok(false),
            Err(ReadFault::Memory) => return Err(AllocError),
        }
    }
}

/// Adds the lines of a reader that was not read before, as [`add_lines`] does, and returns the
/// reader.
fn add_all_lines<R: CountedRead>(
    alloc: Global,
    reader: R,
    texts: &mut Vec<u8>,
) -> (R, Result<bool, AllocError>)
    requires { R.may_be_read reader }
    ensures ok { IfOk result.1 (λ all. AddsLines (R.remaining reader) (R.remaining result.0)
        (R.failures reader) (R.failures result.0) texts.old.items texts.new.items all) }
    ensures err { OnErr result.1 (R.failures result.0 ≡ R.failures reader) }
{
    let mut lines = match Lines::new(alloc, reader) {
        Ok(lines) => lines,
        Err(reader) => return (reader, Err(AllocError)),
    };
    let read = add_lines(&mut lines, texts);
    (lines.into_reader(), read)
}

/// Adds the lines of the pattern file that the word names.
fn add_pattern_file<'a, F: Files>(
    alloc: Global,
    files: &mut F,
    word: &'a str,
    texts: &mut Vec<u8>,
) -> Result<(), CommandFault<'a>>
    ensures used { F.folder files.new ≡ after_use (F.folder files.old) word.now }
    ensures back { IfOk result (λ _.
        (rest : Option Text) × Returns F.returned_readers files.old files.new (rest ∷ [])) }
    ensures ok { IfOk result (λ _.
        AddsSource (F.folder files.old) (file word.now) texts.old.items texts.new.items
        × (F.failures files.new ≡ F.failures files.old)) }
    ensures err { IfErr result (λ fault. StopsFor
        (λ unread. GivesPatterns (F.folder files.old) (file word.now) (Err unread))
        (F.failures files.old) (F.failures files.new) fault) }
{
    let Some(reader) = open_named(files, word) else {
        return Err(CommandFault::Missing(word));
    };
    let (reader, read) = add_all_lines(alloc, reader, texts);
    files.close(reader);
    match read {
        Ok(true) => Ok(()),
        Ok(false) => Err(CommandFault::Broken(word)),
        Err(_) => Err(CommandFault::Memory),
    }
}

/// Adds the patterns of a source.
fn add_source<'a, F: Files>(
    alloc: Global,
    files: &mut F,
    source: &'a PatternSource,
    texts: &mut Vec<u8>,
) -> Result<(), CommandFault<'a>>
    ensures used { F.folder files.new ≡ folder_after (F.folder files.old) (given_source source.now) }
    ensures back { IfOk result (λ _. (left : List (Option Text))
        × OneReaderEach (given_source source.now ∷ []) left
        × Returns F.returned_readers files.old files.new left) }
    ensures ok { IfOk result (λ _.
        AddsSource (F.folder files.old) (given_source source.now) texts.old.items texts.new.items
        × (F.failures files.new ≡ F.failures files.old)) }
    ensures err { IfErr result (λ fault. StopsFor
        (λ unread. GivesPatterns (F.folder files.old) (given_source source.now) (Err unread))
        (F.failures files.old) (F.failures files.new) fault) }
{
    match source {
        PatternSource::List(list) => match add_text(texts, list.as_bytes()) {
            Ok(()) => Ok(()),
            Err(_) => Err(CommandFault::Memory),
        },
        PatternSource::File(word) => add_pattern_file(alloc, files, word, texts),
    }
}

/// The patterns of all sources, in order, each followed by a newline.
///
/// Nothing is read after the first file that could not be opened or read, which `Missing` and
/// `Broken` report. `Memory` is returned if an allocation fails.
pub fn read_patterns<'a, F: Files>(
    alloc: Global,
    files: &mut F,
    sources: &'a [PatternSource],
) -> Result<Vec<u8>, CommandFault<'a>>
    ensures back { IfOk result (λ _. (left : List (Option Text))
        × OneReaderEach (map given_source sources.now) left
        × Returns F.returned_readers files.old files.new left) }
    ensures used { IfOk result
        (λ _. F.folder files.new ≡ folder_after_all (F.folder files.old) (map given_source sources.now)) }
    ensures none_failed { IfOk result (λ _. F.failures files.new ≡ F.failures files.old) }
    ensures ok { IfOk result
        (λ texts.
        GivePatterns (F.folder files.old) (map given_source sources.now) (lines_of texts.items)) }
    ensures err { IfErr result
        (λ fault. StopsFor (FirstUnread (F.folder files.old) (map given_source sources.now))
        (F.failures files.old) (F.failures files.new) fault) }
{
    let mut texts = Vec::new(alloc);
    for source in sources {
        match add_source(alloc, files, source, &mut texts) {
            Ok(()) => {}
            Err(fault) => return Err(fault),
        }
    }
    Ok(texts)
}
