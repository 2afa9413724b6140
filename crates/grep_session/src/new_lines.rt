//! Lines that a session is given.
ghost use Rattle.std.specs.Prelude.{◌≡◌, [], ◌∷◌, ◌++◌, length, map, All, IfOk, OnErr, MatchBool};
ghost use Rattle.re_syntax.specs.Lines.{HasNoNewline};
ghost use Rattle.grep_session.specs.Working.{Refusals.CopiesLines, Kept.IsNew};
ghost use Rattle.line_chunks.specs.Working.Chunks.{all_of, line_text};

use crate::fault::EditFault;
use crate::kept::FileLines;
use std::alloc::{AllocError, Global};
use std::marker::Model;

/// Whether a byte of the line is a newline.
fn has_newline(line: &[u8]) -> bool
    ensures { MatchBool result (HasNoNewline line.now → ⊥) (HasNoNewline line.now) }
{
    line.contains(&b'\n')
}

/// Whether some line has a newline in it.
fn any_newline(lines: &[Vec<u8>]) -> bool
    ensures { MatchBool result (All HasNoNewline (map (λ line. line.items) lines.now) → ⊥)
        (All HasNoNewline (map (λ line. line.items) lines.now)) }
{
    for line in lines {
        if has_newline(line) {
            return true;
        }
    }
    false
}

/// Lines for a session, in the chunks that its file will have. Contracts see the list of them; none
/// has a newline in it.
#[derive(Drop)]
pub struct NewLines {
    alloc: Global,
    lines: FileLines,
}

impl Model for NewLines {
    ghost use Rattle.std.specs.Prelude.{List};
    ghost use Rattle.re_syntax.specs.Bytes.{Text};

    ghost Value = { List Text };

    ghost use Rattle.std.specs.Prelude.{map, All};
    ghost use Rattle.re_syntax.specs.Lines.{HasNoNewline};
    ghost use Rattle.grep_session.specs.Working.Kept.{IsNew};
    ghost use Rattle.line_chunks.specs.Working.Chunks.{all_of, line_text};

    ghost view = { λ new. map line_text (all_of new.lines) };

    ghost invariant = { λ new. All HasNoNewline (map line_text (all_of new.lines)) ×
        All IsNew (all_of new.lines) };
}

impl NewLines {
    /// No lines.
    pub fn new(alloc: Global) -> NewLines
        ensures { result ≡ [] }
    {
        NewLines {
            alloc,
            lines: FileLines::new(alloc),
        }
    }

    /// Copies of the lines.
    ///
    /// # Errors
    ///
    /// `EditFault::LineHasNewline`, for which no memory is asked for, or `EditFault::Memory`.
    pub fn from_lines(alloc: Global, lines: &[Vec<u8>]) -> Result<NewLines, EditFault>
        ensures { CopiesLines (map (λ line. line.items) lines.now) result }
    {
        if any_newline(lines) {
            return Err(EditFault::LineHasNewline);
        }
        let mut new = NewLines::new(alloc);
        for line in lines {
            match new.push(line) {
                Ok(()) => {}
                Err(_) => return Err(EditFault::Memory),
            }
        }
        Ok(new)
    }

    /// The number of lines.
    pub fn len(&self) -> usize
        ensures { result ≡ length self.now }
    {
        self.lines.len()
    }

    /// Adds a line after the others.
    ///
    /// # Errors
    ///
    /// `AllocError`; the lines stay as they are.
    pub fn push(&mut self, line: &[u8]) -> Result<(), AllocError>
        requires { HasNoNewline line.now }
        ensures ok { IfOk result (λ _. self.new ≡ self.old ++ line.now ∷ []) }
        ensures err { OnErr result (self.new ≡ self.old) }
    {
        self.lines.push(self.alloc, line)?;
        Ok(())
    }
}

/// The chunks of the lines, in which nothing is found yet.
pub fn kept_of(given: NewLines) -> FileLines
    ensures same { map line_text (all_of result) ≡ given }
    ensures free { All HasNoNewline given }
    ensures new { All IsNew (all_of result) }
{
    let NewLines { alloc: _, lines } = given;
    lines
}
