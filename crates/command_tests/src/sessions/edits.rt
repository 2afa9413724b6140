//! Edits of a session as data.
use grep_core::{Context, Flag};
use grep_session::{EditFault, NewLines, Session};
use re_search::{Meter, Syntax};
use re_syntax::split_file;
use std::alloc::{AllocError, Global};

/// An edit. Lines are given one after the other, each with a newline after it; a bar means a
/// newline within a line.
#[derive(Clone, Copy, Debug, Drop)]
pub enum Edit {
    AddFile(&'static str, &'static [u8]),
    AddMissing(&'static str),
    DropFile(usize),
    Splice(usize, usize, usize, &'static [u8]),
    AddPatterns(&'static [u8]),
    DropPattern(usize),
    ChangePattern(usize, &'static str),
    SetFlag(Flag, bool),
    SetSyntax(Syntax),
    SetContext(Option<Context>),
}

/// What an edit answers.
pub type Answer = Result<(), EditFault>;

/// What an edit hands over to the session.
#[derive(Drop)]
pub struct Handed {
    pub name: Vec<u8>,
    pub lines: Vec<Vec<u8>>,
}

/// A line, each bar a newline.
fn line_of(alloc: Global, text: &[u8]) -> Result<Vec<u8>, AllocError> {
    let mut line = Vec::from_slice(alloc, text)?;
    for byte in line.iter_mut() {
        if *byte == b'|' {
            *byte = b'\n';
        }
    }
    Ok(line)
}

/// The lines of a text.
fn lines_of(alloc: Global, text: &[u8]) -> Result<Vec<Vec<u8>>, AllocError> {
    let mut lines = Vec::new(alloc);
    for line in split_file(text) {
        let line = line_of(alloc, line)?;
        lines.push(line)?;
    }
    Ok(lines)
}

/// The name or the pattern, and the lines of an edit.
fn texts_of(edit: Edit) -> (&'static str, &'static [u8]) {
    match edit {
        Edit::AddFile(name, text) => (name, text),
        Edit::AddMissing(name) => (name, b""),
        Edit::ChangePattern(_, text) => (text, b""),
        Edit::Splice(_, _, _, text) => ("", text),
        _ => ("", b""),
    }
}

/// What the edit hands over.
pub fn handed_by(alloc: Global, edit: Edit) -> Result<Handed, AllocError> {
    let (name, text) = texts_of(edit);
    Ok(Handed {
        name: Vec::from_slice(alloc, name.as_bytes())?,
        lines: lines_of(alloc, text)?,
    })
}

/// Makes the edit.
pub fn make_edit(
    alloc: Global,
    session: &mut Session,
    edit: Edit,
    handed: Handed,
    meter: &mut Meter,
) -> Answer {
    let Handed { name, lines } = handed;
    match edit {
        Edit::AddFile(_, _) => {
            session.add_file(name, NewLines::from_lines(alloc, &lines)?, meter)
        }
        Edit::AddMissing(_) => session.add_missing(name),
        Edit::DropFile(k) => session.drop_file(k),
        Edit::Splice(k, start, count, _) => {
            session.splice(k, start, count, NewLines::from_lines(alloc, &lines)?, meter)
        }
        Edit::AddPatterns(list) => session.add_patterns(list, meter),
        Edit::DropPattern(p) => session.drop_pattern(p, meter),
        Edit::ChangePattern(p, _) => session.change_pattern(p, name, meter),
        Edit::SetFlag(flag, on) => session.set_flag(flag, on, meter),
        Edit::SetSyntax(syntax) => session.set_syntax(syntax, meter),
        Edit::SetContext(context) => {
            session.set_context(context);
            Ok(())
        }
    }
}
