//! The commands of a script.
ghost use Rattle.std.specs.Prelude.{◌≡◌, [], ◌∷◌, Some, IfOk, IfErr, option_map};
ghost use Rattle.script_commands.specs.Commands.{splice_command, close_command, missing_command};
ghost use Rattle.script_commands.specs.Commands.{flag_of, flag_command, syntax_of, context_command};
ghost use Rattle.script_commands.specs.Commands.{line_command, text_command, page_command, name_of};
ghost use Rattle.script_commands.specs.Commands.{unnamed_command, asking_command, file_command};
ghost use Rattle.script_commands.specs.Commands.{alone, pattern_command, switch_of, drop_command};
ghost use Rattle.script_commands.specs.Commands.{AsksForMemory, patterns_command, syntax_command};
ghost use Rattle.script_commands.specs.Working.ReadCommands.{meant};

use crate::line_words::{LineWords, words_of};
use grep_core::{Context, Flag};
use grep_utility::{Meaning, meaning_of_option, read_number};
use re_syntax::Syntax;
use std::alloc::{AllocError, Global};

/// An edit for which the command line is enough.
#[derive(Drop)]
pub enum LineEdit {
    /// A file of this name that cannot be opened is added.
    AddMissing(Vec<u8>),
    /// The file of this number is closed.
    DropFile(usize),
    /// The pattern of this number is dropped.
    DropPattern(usize),
    SetFlag(Flag, bool),
    SetSyntax(Syntax),
    SetContext(Option<Context>),
}

/// An edit that puts lines of the script into a file.
#[derive(Drop)]
pub enum FileEdit {
    /// The lines are those of a file of this name.
    Add(Vec<u8>),
    /// The lines are added to a file, in the place of others.
    Splice {
        /// The number of the file.
        file: usize,
        /// The first line that is removed.
        start: usize,
        /// How many lines are removed.
        removed: usize,
    },
}

/// An edit of patterns by lines of the script.
#[derive(Drop)]
pub enum PatternEdit {
    /// The lines are new patterns.
    Add,
    /// The line takes the place of the pattern of this number.
    Change(usize),
}

/// An edit that takes lines of the script.
#[derive(Drop)]
pub enum CountedEdit {
    /// The lines are put into a file.
    PutLines(FileEdit),
    /// The lines are patterns.
    PutPatterns(PatternEdit),
}

/// An edit with the number of the next lines that it takes.
#[derive(Drop)]
pub struct CountedCommand {
    pub count: usize,
    pub edit: CountedEdit,
}

/// What a command line asks for.
#[derive(Drop)]
pub enum Command {
    Edit(LineEdit),
    Counted(CountedCommand),
    /// The report.
    Show,
    /// What changed.
    Changes,
    /// A page: the number of its first hit, and of its hits.
    Page(usize, usize),
    /// The version.
    Version,
    /// Whether the rows of hits have their text.
    Text(bool),
}

/// The name that the word is.
fn read_name(alloc: Global, word: &[u8]) -> Result<Option<Vec<u8>>, AllocError>
    ensures name { IfOk result (λ name. option_map (λ text. text.items) name ≡ name_of word.now) }
    ensures short { IfErr result (λ _. name_of word.now ≡ Some word.now) }
{
    if word.is_empty() {
        return Ok(None);
    }
    let mut name = Vec::new(alloc);
    name.extend_from_slice(word)?;
    Ok(Some(name))
}

/// The option that the word names by its letter.
fn read_flag(word: &[u8]) -> Option<Flag>
    ensures { result ≡ flag_of word.now }
{
    if word.len() != 1 {
        return None;
    }
    match meaning_of_option(char::from(word[0])) {
        Some(Meaning::Flag(flag)) => Some(flag),
        _ => None,
    }
}

/// Whether the word is `on`, where it is that or `off`.
fn read_switch(word: &[u8]) -> Option<bool>
    ensures { result ≡ switch_of word.now }
{
    if word == b"on".as_slice() {
        return Some(true);
    }
    if word == b"off".as_slice() {
        return Some(false);
    }
    None
}

/// The syntax that the word names.
fn read_syntax(word: &[u8]) -> Option<Syntax>
    ensures { result ≡ syntax_of word.now }
{
    if word == b"basic".as_slice() {
        return Some(Syntax::Basic);
    }
    if word == b"extended".as_slice() {
        return Some(Syntax::Extended);
    }
    if word == b"fixed".as_slice() {
        return Some(Syntax::Fixed);
    }
    None
}

/// `file NAME COUNT`
fn read_file(alloc: Global, words: LineWords<'_>) -> Result<Option<Command>, AllocError>
    ensures read { IfOk result (λ command. option_map meant command ≡ file_command words.entry) }
    ensures short { IfErr result (λ _. AsksForMemory (file_command words.entry) []) }
{
    let Some((name, count)) = words.two() else {
        return Ok(None);
    };
    let Some(count) = read_number(count) else {
        return Ok(None);
    };
    let Some(name) = read_name(alloc, name)? else {
        return Ok(None);
    };
    let edit = CountedEdit::PutLines(FileEdit::Add(name));
    Ok(Some(Command::Counted(CountedCommand { count, edit })))
}

/// `missing NAME`
fn read_missing(alloc: Global, words: LineWords<'_>) -> Result<Option<Command>, AllocError>
    ensures read { IfOk result
        (λ command. option_map meant command ≡ missing_command words.entry) }
    ensures short { IfErr result (λ _. AsksForMemory (missing_command words.entry) []) }
{
    let Some(word) = words.only() else {
        return Ok(None);
    };
    let Some(name) = read_name(alloc, word)? else {
        return Ok(None);
    };
    Ok(Some(Command::Edit(LineEdit::AddMissing(name))))
}

/// `close K`
fn read_close(words: LineWords<'_>) -> Option<Command>
    ensures { option_map meant result ≡ close_command words.entry }
{
    let file = read_number(words.only()?)?;
    Some(Command::Edit(LineEdit::DropFile(file)))
}

/// `splice K START REMOVE COUNT`
fn read_splice(words: LineWords<'_>) -> Option<Command>
    ensures { option_map meant result ≡ splice_command words.entry }
{
    let ((file, start), (removed, count)) = words.four()?;
    let edit = FileEdit::Splice {
        file: read_number(file)?,
        start: read_number(start)?,
        removed: read_number(removed)?,
    };
    let edit = CountedEdit::PutLines(edit);
    let count = read_number(count)?;
    Some(Command::Counted(CountedCommand { count, edit }))
}

/// `patterns COUNT`, where there is at least one
fn read_patterns(words: LineWords<'_>) -> Option<Command>
    ensures { option_map meant result ≡ patterns_command words.entry }
{
    let count = read_number(words.only()?)?;
    if count == 0 {
        return None;
    }
    let edit = CountedEdit::PutPatterns(PatternEdit::Add);
    Some(Command::Counted(CountedCommand { count, edit }))
}

/// `drop P`
fn read_drop(words: LineWords<'_>) -> Option<Command>
    ensures { option_map meant result ≡ drop_command words.entry }
{
    let pattern = read_number(words.only()?)?;
    Some(Command::Edit(LineEdit::DropPattern(pattern)))
}

/// `pattern P`, which counts one line
fn read_pattern(words: LineWords<'_>) -> Option<Command>
    ensures { option_map meant result ≡ pattern_command words.entry }
{
    let pattern = read_number(words.only()?)?;
    let edit = CountedEdit::PutPatterns(PatternEdit::Change(pattern));
    Some(Command::Counted(CountedCommand { count: 1, edit }))
}

/// `flag LETTER on` or `off`
fn read_flag_command(words: LineWords<'_>) -> Option<Command>
    ensures { option_map meant result ≡ flag_command words.entry }
{
    let (letter, switch) = words.two()?;
    let flag = read_flag(letter)?;
    let on = read_switch(switch)?;
    Some(Command::Edit(LineEdit::SetFlag(flag, on)))
}

/// `syntax basic`, `extended` or `fixed`
fn read_syntax_command(words: LineWords<'_>) -> Option<Command>
    ensures { option_map meant result ≡ syntax_command words.entry }
{
    let syntax = read_syntax(words.only()?)?;
    Some(Command::Edit(LineEdit::SetSyntax(syntax)))
}

/// `context off`
fn read_no_context(word: &[u8]) -> Option<Command>
    ensures { option_map meant result ≡ context_command (word.now ∷ []) }
{
    if word == b"off".as_slice() {
        return Some(Command::Edit(LineEdit::SetContext(None)));
    }
    None
}

/// `context BEFORE AFTER`
fn read_numbers_of_lines(before: &[u8], after: &[u8]) -> Option<Command>
    ensures { option_map meant result ≡ context_command (before.now ∷ after.now ∷ []) }
{
    let before = read_number(before)? as u64;
    let after = read_number(after)? as u64;
    let context = Context { before, after };
    Some(Command::Edit(LineEdit::SetContext(Some(context))))
}

/// `context off` or `context BEFORE AFTER`
fn read_context(words: LineWords<'_>) -> Option<Command>
    ensures { option_map meant result ≡ context_command words.entry }
{
    let mut words = words;
    let first = words.next()?;
    let Some(second) = words.next() else {
        return read_no_context(first);
    };
    match words.next() {
        Some(_) => None,
        None => read_numbers_of_lines(first, second),
    }
}

/// `show`, `changes` or `version`: a command that no word follows
fn read_alone(command: Command, words: LineWords<'_>) -> Option<Command>
    ensures { option_map meant result ≡ alone (meant command) words.entry }
{
    let mut words = words;
    match words.next() {
        Some(_) => None,
        None => Some(command),
    }
}

/// `page FIRST COUNT`
fn read_page(words: LineWords<'_>) -> Option<Command>
    ensures { option_map meant result ≡ page_command words.entry }
{
    let (first, count) = words.two()?;
    let first = read_number(first)?;
    let count = read_number(count)?;
    Some(Command::Page(first, count))
}

/// `text on` or `text off`
fn read_text(words: LineWords<'_>) -> Option<Command>
    ensures { option_map meant result ≡ text_command words.entry }
{
    let on = read_switch(words.only()?)?;
    Some(Command::Text(on))
}

/// The command of this word and those that follow it, where it is no edit.
#[tactic(auto, unfolding(crate::specs::Commands::asking_command))]
fn read_asking(word: &[u8], words: LineWords<'_>) -> Option<Command>
    ensures { option_map meant result ≡ asking_command word.now words.entry }
{
    if word == b"show".as_slice() {
        return read_alone(Command::Show, words);
    }
    if word == b"changes".as_slice() {
        return read_alone(Command::Changes, words);
    }
    if word == b"page".as_slice() {
        return read_page(words);
    }
    if word == b"version".as_slice() {
        return read_alone(Command::Version, words);
    }
    if word == b"text".as_slice() {
        return read_text(words);
    }
    None
}

/// The command of this word and those that follow it, where it has no name in it.
#[tactic(auto, unfolding(crate::specs::Commands::unnamed_command))]
fn read_unnamed(word: &[u8], words: LineWords<'_>) -> Option<Command>
    ensures { option_map meant result ≡ unnamed_command word.now words.entry }
{
    if word == b"splice".as_slice() {
        return read_splice(words);
    }
    if word == b"close".as_slice() {
        return read_close(words);
    }
    if word == b"patterns".as_slice() {
        return read_patterns(words);
    }
    if word == b"drop".as_slice() {
        return read_drop(words);
    }
    if word == b"pattern".as_slice() {
        return read_pattern(words);
    }
    if word == b"flag".as_slice() {
        return read_flag_command(words);
    }
    if word == b"syntax".as_slice() {
        return read_syntax_command(words);
    }
    if word == b"context".as_slice() {
        return read_context(words);
    }
    read_asking(word, words)
}

/// The command of a line, where it is one. The allocation for its name may fail.
pub fn read_command(alloc: Global, line: &[u8]) -> Result<Option<Command>, AllocError>
    ensures read { IfOk result (λ command. option_map meant command ≡ line_command line.now) }
    ensures short { IfErr result (λ _. AsksForMemory (line_command line.now) []) }
{
    let mut words = words_of(line);
    let Some(word) = words.next() else {
        return Ok(None);
    };
    if word == b"file".as_slice() {
        return read_file(alloc, words);
    }
    if word == b"missing".as_slice() {
        return read_missing(alloc, words);
    }
    Ok(read_unnamed(word, words))
}
