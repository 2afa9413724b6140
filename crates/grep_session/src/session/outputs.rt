//! What grep writes for a session, and its status. No line is searched and nothing is allocated:
//! all is computed from what is kept.
ghost use Rattle.std.specs.{Prelude.List, Bool.Decides};
ghost use Rattle.{re_syntax.specs.Expression.Expression, grep_core.specs.Files.Mean};
ghost use Rattle.grep_core.specs.Messages.{AnySelected};
ghost use Rattle.grep_session.specs.Headline.{ReportsAllInputs, ReportsInputs, IsStatusOfInputs};

use crate::report::{status, status_given, write_messages, write_report};
use crate::session::Session;
use grep_core::{CountedWrite, Status, WriteFault};

impl Session {
    /// Writes what grep writes to standard output for the files, patterns and options of the
    /// session (XCU grep, STDOUT), each line after the margin, and returns its status. No line is
    /// searched and nothing is allocated.
    ///
    /// # Errors
    ///
    /// `WriteFault` if a write fails, which the writer counts. A beginning was written. The write
    /// is not tried again.
    pub fn report<W: CountedWrite>(&self, margin: &[u8], out: &mut W) -> Result<Status, WriteFault>
        ensures { ReportsInputs W.contents W.failures self.now.inputs margin.now out.old out.new result }
    {
        write_report(&self.files, &self.options, margin, out)
    }

    /// Writes what grep writes to standard error about the files of the session (XCU grep, STDERR),
    /// each line after the margin. No line is searched and nothing is allocated.
    ///
    /// # Errors
    ///
    /// `WriteFault` if a write fails, which the writer counts. A beginning was written. The write
    /// is not tried again.
    pub fn messages<W: CountedWrite>(&self, margin: &[u8], out: &mut W) -> Result<(), WriteFault>
        ensures { ReportsAllInputs W.contents W.failures self.now.inputs margin.now out.old out.new result }
    {
        write_messages(&self.files, &self.options, margin, out)
    }

    /// The exit status of grep for the session (XCU grep, EXIT STATUS).
    pub fn status(&self) -> Status
        ensures { IsStatusOfInputs self.now.inputs result }
    {
        status(&self.files, &self.options)
    }

    /// The exit status of grep for the session, where it is known whether some line is selected: no
    /// line is looked at.
    pub fn status_given(&self, some: bool) -> Status
        requires { (es : List Expression) → Mean self.now.inputs es →
            Decides some (AnySelected es self.now.inputs.options self.now.inputs.files) }
        ensures { IsStatusOfInputs self.now.inputs result }
    {
        status_given(&self.files, &self.options, some)
    }
}
