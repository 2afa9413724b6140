//! What is asked of one file.
ghost use Rattle.std.specs.Prelude.{◌≡◌, ◌≤◌, IsTrue, ◌++◌, length, slice_range};
ghost use Rattle.std.specs.Option.{option_copied};
ghost use Rattle.grep_core.specs.{Output.shown_number, Row.{colon, head, output_line}};
ghost use Rattle.grep_core.specs.Working.{OneLine.IsBare, Progress.row_by, Requests.name_shown};
ghost use Rattle.grep_io.specs.Written.{Writes};

use crate::options::{Form, Options};
use crate::output::rows::write_row;
use grep_io::{CountedWrite, WriteFault};
use re_search::Span;

/// What is asked of one file.
#[derive(Clone, Copy)]
pub struct FileRequest<'a> {
    /// The options of the run.
    pub options: Options,
    /// Whether rows and counts begin with the file's name.
    pub many: bool,
    /// The file's name.
    pub name: &'a [u8],
}

impl FileRequest<'_> {
    /// The name that rows and counts begin with.
    pub fn shown_name(&self) -> Option<&[u8]>
        ensures { option_copied result ≡ name_shown self.now.many self.now.name.now }
    {
        if self.many { Some(self.name) } else { None }
    }

    /// The line number that rows begin with.
    pub fn shown_number(&self, number: u64) -> Option<u64>
        ensures { result ≡ shown_number self.now.options number }
    {
        if self.options.line_number {
            Some(number)
        } else {
            None
        }
    }

    /// Whether the rows of selected lines are these lines and nothing else.
    pub fn writes_bare_lines(&self) -> bool
        ensures { IsTrue result → IsBare self.now.options self.now.many }
    {
        match self.options.form() {
            Form::Lines => !self.many & !self.options.line_number,
            _ => false,
        }
    }

    // The margin, the head with this separator, and the text.
    fn write_with<W: CountedWrite>(
        &self,
        separator: u8,
        number: u64,
        text: &[u8],
        out: &mut W,
        margin: &[u8],
    ) -> Result<(), WriteFault>
        ensures { Writes W.contents W.failures out.old out.new (output_line margin.now
            (head separator (name_shown self.now.many self.now.name.now)
            (shown_number self.now.options number) ++ text.now)) result }
    {
        write_row(
            out,
            margin,
            separator,
            self.shown_name(),
            self.shown_number(number),
            text,
        )
    }

    /// Writes an output line for a line of the file: the margin, the file's name and the line's
    /// number as far as they are shown, and the text, which is the line or a part of it.
    ///
    /// Returns `WriteFault` if a write fails. It is not tried again.
    pub fn write_text<W: CountedWrite>(
        &self,
        number: u64,
        text: &[u8],
        out: &mut W,
        margin: &[u8],
    ) -> Result<(), WriteFault>
        ensures { Writes W.contents W.failures out.old out.new (output_line margin.now
            (head colon (name_shown self.now.many self.now.name.now)
            (shown_number self.now.options number) ++ text.now)) result }
    {
        self.write_with(b':', number, text, out, margin)
    }

    /// Writes an output line for a line that is shown: for a selected one what
    /// [`FileRequest::write_text`] writes, and for one around it the same with hyphens for the colons.
    ///
    /// Returns `WriteFault` if a write fails. It is not tried again.
    pub fn write_shown<W: CountedWrite>(
        &self,
        selected: bool,
        number: u64,
        text: &[u8],
        out: &mut W,
        margin: &[u8],
    ) -> Result<(), WriteFault>
        ensures { Writes W.contents W.failures out.old out.new (output_line margin.now
            (row_by self.now.options self.now.many self.now.name.now selected number text.now)) result }
    {
        if selected {
            return self.write_text(number, text, out, margin);
        }
        self.write_with(b'-', number, text, out, margin)
    }

    /// Writes an output line for a part of a line of the file: what [`FileRequest::write_text`] writes
    /// for the part's text.
    ///
    /// Returns `WriteFault` if a write fails. It is not tried again.
    pub fn write_part<W: CountedWrite>(
        &self,
        number: u64,
        line: &[u8],
        part: Span,
        out: &mut W,
        margin: &[u8],
    ) -> Result<(), WriteFault>
        requires in_order { part.start ≤ part.end }
        requires on_line { part.end ≤ length line.now }
        ensures { Writes W.contents W.failures out.old out.new (output_line margin.now
            (head colon (name_shown self.now.many self.now.name.now)
            (shown_number self.now.options number) ++ slice_range line.now part.start part.end))
            result }
    {
        self.write_text(number, &line[part.start..part.end], out, margin)
    }
}
