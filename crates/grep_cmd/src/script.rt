//! Scripts: commands to a session, line by line, and the replies to them.
ghost use Rattle.std.specs.Prelude.{◌≡◌, ◌≢◌, ◌≤◌, Err};
ghost use Rattle.re_syntax.specs.Profile.{most_states};
ghost use Rattle.grep_cmd.specs.{declared.script.ScriptFault.ScriptFault, Replies.GaveLines};
ghost use Rattle.grep_cmd.specs.{Replies.{ScriptGives, new_state}, Working.Answered.FlushesAfter};

mod answer;
mod counted;
mod pattern_lines;
mod reply;

use crate::script::answer::answer_command;
use crate::script::counted::next_line;
use crate::script::reply::Answer;
use grep_core::{CountedRead, CountedWrite, Lines, WriteFault};
use grep_session::{Meter, Session};
use std::alloc::Global;
use std::marker::Model;

/// The version of the program, and that of scripts.
pub const VERSION: &str = "1.0.0 script 2";

/// How a script ended.
#[derive(Clone, Copy, PartialEq, Eq, Debug, Drop)]
pub enum ScriptEnd {
    /// No reply is a refusal.
    Clean,
    /// Some reply is a refusal.
    Refused,
}

/// Why a script was not answered to its end.
#[derive(Clone, Copy, PartialEq, Eq, Debug, Drop)]
pub enum ScriptFault {
    /// A read failed, or there are more lines than can be numbered.
    Read,
    /// A write failed.
    Write,
    /// An allocation failed.
    Memory,
}

/// Sends the buffered replies, after a script that ended so.
fn send_replies<W: CountedWrite>(
    ended: Result<ScriptEnd, ScriptFault>,
    writer: &mut W,
) -> Result<ScriptEnd, ScriptFault>
    ensures kept { FlushesAfter W.contents W.failures writer.old writer.new ended result }
    ensures sent { result ≢ Err ScriptFault.Write → W.waiting writer.new ≡ 0 }
{
    match ended {
        Err(ScriptFault::Write) => return ended,
        _ => {}
    }
    match writer.flush() {
        Ok(()) => ended,
        Err(WriteFault) => Err(ScriptFault::Write),
    }
}

/// A session on which commands are answered, and whether rows of hits have their text. Contracts
/// see its state.
#[derive(Drop)]
pub struct Script {
    session: Session,
    has_text: bool,
}

impl Model for Script {
    ghost use Rattle.grep_cmd.specs.Replies.{ScriptState};

    ghost Value = { ScriptState };

    ghost view = { λ s. record { session = s.session; texts = s.has_text } };
}

impl Script {
    /// A new session. Each pattern keeps at most this number of states.
    pub fn new(alloc: Global, states: usize) -> Script
        requires some { 1 ≤ states }
        requires few { states ≤ most_states }
        ensures { result ≡ new_state states }
    {
        Script {
            session: Session::new(alloc, states),
            has_text: true,
        }
    }

    /// Answers the commands of a reader to its end, from the state that the last ones left: reads
    /// them line by line, makes their edits, and writes the replies in the order of the commands.
    ///
    /// The replies are those that the definition of a script gives for its lines, but an edit may
    /// be refused as out of memory. All of them were sent. Before each read that may wait, all
    /// replies to the commands before it are sent, so that the sender of a command sees its reply
    /// without sending another. No more steps are counted than the edits cost, which search only
    /// what they touch.
    ///
    /// # Errors
    ///
    /// `ScriptFault::Read` where a read fails, or there are more lines than a `u64` can number, and
    /// `ScriptFault::Memory` where a line, a name or the lines of a command can't be held: all
    /// commands before that were answered. Of a script whose reading failed no whole command is
    /// left, and of one that ran out of memory no line after that command was taken.
    /// `ScriptFault::Write` where a write fails: of the commands that were done, all but the last
    /// have their replies, and that has a beginning of its own; a `changes` may then still have all
    /// to report. No read or write is tried again.
    pub fn answer<R: CountedRead, W: CountedWrite>(
        &mut self,
        alloc: Global,
        reader: &mut R,
        writer: &mut W,
        meter: &mut Meter,
    ) -> Result<ScriptEnd, ScriptFault>
        requires { R.may_be_read reader.old }
        ensures gives { ScriptGives W.contents W.failures
            (GaveLines (R.remaining reader.old) (R.remaining reader.new)) (R.remaining reader.old)
            (R.remaining reader.new) (R.failures reader.old) (R.failures reader.new) self.old
            self.new meter.old meter.new writer.old writer.new result }
        ensures sent { result ≢ Err ScriptFault.Write → W.waiting writer.new ≡ 0 }
    {
        let mut lines = match Lines::new(alloc, reader) {
            Ok(lines) => lines,
            Err(_reader) => return send_replies(Err(ScriptFault::Memory), writer),
        };
        let mut end = ScriptEnd::Clean;
        let ended = loop {
            match next_line(&mut lines, writer) {
                Ok(true) => {}
                Ok(false) => break Ok(end),
                Err(fault) => break Err(fault),
            }
            match answer_command(
                alloc,
                &mut lines,
                &mut self.session,
                &mut self.has_text,
                meter,
                writer,
            ) {
                Ok(Answer::Accepted) => {}
                Ok(Answer::Refused) => end = ScriptEnd::Refused,
                Ok(Answer::Truncated) => break Ok(ScriptEnd::Refused),
                Err(fault) => break Err(fault),
            }
        };
        let _reader = lines.into_reader();
        send_replies(ended, writer)
    }
}
