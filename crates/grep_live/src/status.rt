//! The status of grep.
ghost use Rattle.std.specs.{Prelude.List, Bool.Decides};
ghost use Rattle.{re_syntax.specs.Expression.Expression, grep_core.specs.Messages.AnySelected};
ghost use Rattle.{grep_core.specs.Files.Mean, grep_session.specs.Headline.IsStatusOfInputs};

use grep_core::Status;
use grep_session::Session;

/// Whether some file has a hit.
fn any_hit(session: &Session) -> bool
    ensures { (es : List Expression) → Mean session.now.inputs es →
        Decides result (AnySelected es session.now.inputs.options session.now.inputs.files) }
{
    for k in 0..session.file_count() {
        let lines = session.line_count(k);
        let next = session.next_hit(k, 0);
        if next < lines {
            return true;
        }
    }
    false
}

/// The exit status of grep (XCU grep, EXIT STATUS), by the first hit of each file.
pub fn status(session: &Session) -> Status
    ensures { IsStatusOfInputs session.now.inputs result }
{
    session.status_given(any_hit(session))
}
