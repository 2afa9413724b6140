//! The replies to commands.
ghost use Rattle.std.specs.Prelude.{◌≡◌, [], IfOk};
ghost use Rattle.{grep_core.specs.{Row.output_line, Written.Writes}, grep_cmd.specs.Replies.cause};
ghost use Rattle.grep_cmd.specs.{Replies.{refused_for, reply_to}, Working.Answered.answer_for};

use grep_core::{CountedWrite, WriteFault, write_line};
use grep_session::EditFault;
use grep_utility::write_pattern_refused;

/// How a command was answered.
#[derive(Clone, Copy, PartialEq, Eq, Debug, Drop)]
pub enum Answer {
    /// It was done.
    Accepted,
    /// It was refused.
    Refused,
    /// It counts more lines than the script has, which are used up.
    Truncated,
}

/// Writes the refusal of an edit.
#[tactic(auto, unfolding(crate::specs::Replies::cause))]
fn write_refused<W: CountedWrite>(out: &mut W, fault: EditFault) -> Result<(), WriteFault>
    ensures { Writes W.contents W.failures out.old out.new
        (output_line [] (refused_for (cause fault))) result }
{
    match fault {
        EditFault::NoSuchFile => write_line(out, b"refused NoSuchFile"),
        EditFault::FileIsMissing => write_line(out, b"refused FileIsMissing"),
        EditFault::OutOfRange => write_line(out, b"refused OutOfRange"),
        EditFault::LineHasNewline => write_line(out, b"refused LineHasNewline"),
        EditFault::NoSuchPattern => write_line(out, b"refused NoSuchPattern"),
        EditFault::Pattern(place, why) => {
            write_pattern_refused(out, b"refused Pattern ", place as u64, b" ", why, b" ")
        }
        EditFault::TooManyPatterns => write_line(out, b"refused TooManyPatterns"),
        EditFault::Memory => write_line(out, b"refused Memory"),
    }
}

/// Writes the reply to an edit that was answered so.
pub fn write_reply<W: CountedWrite>(
    out: &mut W,
    answer: Result<(), EditFault>,
) -> Result<Answer, WriteFault>
    ensures written { Writes W.contents W.failures out.old out.new
        (output_line [] (reply_to answer)) result }
    ensures answered { IfOk result (λ given. given ≡ answer_for answer) }
{
    match answer {
        Ok(()) => {
            write_line(out, b"ok")?;
            Ok(Answer::Accepted)
        }
        Err(fault) => {
            write_refused(out, fault)?;
            Ok(Answer::Refused)
        }
    }
}
