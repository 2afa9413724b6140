//! A live session with the replies to its last commands.
ghost use Rattle.std.specs.Prelude.{◌≡◌, ◌≤◌, [], drop, length};
ghost use Rattle.{re_syntax.specs.Profile.most_states, grep_cmd.specs.Replies.new_state};
ghost use Rattle.gaxtrel.specs.Live.{AnswersText, text_over};

use crate::numbers::number_of_end;
use crate::text_reader::read_text;
use grep_cmd::Script;
use grep_core::Tally;
use re_search::Meter;
use std::alloc::Global;
use std::marker::Model;

/// A session, and the replies to the commands of the last call. Contracts see its state and their
/// bytes.
#[derive(Drop)]
pub struct Live {
    script: Script,
    replies: Vec<u8>,
}

impl Model for Live {
    ghost use Rattle.gaxtrel.specs.Live.{LiveKept};

    ghost Value = { LiveKept };

    ghost view = { λ l. record { state = l.script; replies = l.replies.items } };
}

impl Live {
    /// A new session, without replies.
    pub(crate) fn new(alloc: Global, states: usize) -> Live
        requires some { 1 ≤ states }
        requires few { states ≤ most_states }
        ensures { result ≡ record { state = new_state states; replies = [] } }
    {
        Live {
            script: Script::new(alloc, states),
            replies: Vec::new(alloc),
        }
    }

    /// Answers the commands of a text, and keeps the replies in place of those before. The number
    /// of how that ended: 0, 1 if a command was refused, 2 if memory was refused.
    pub(crate) fn answer(&mut self, alloc: Global, commands: &[u8], meter: &mut Meter) -> u32
        ensures { AnswersText self.old.state commands.now meter.old self.new meter.new result }
    {
        self.replies = Vec::new(alloc);
        let mut reader = read_text(commands);
        let mut writer = Tally::new(Vec::new(alloc));
        let ended = self.script.answer(alloc, &mut reader, &mut writer, meter);
        self.replies = writer.into_inner();
        number_of_end(ended)
    }

    /// How many bytes the replies have.
    pub(crate) fn count(&self) -> usize
        ensures { result ≡ length self.now.replies }
    {
        self.replies.len()
    }

    /// Writes the replies from a place on over the array, as many bytes as it has room for.
    pub(crate) fn put_replies(&self, from: usize, into: &mut [u8])
        ensures { into.new ≡ text_over (drop from self.now.replies) into.old }
    {
        let from = from.min(self.replies.len());
        put_text(&self.replies[from..], into);
    }
}

/// Writes the first bytes of a text over the array, as many as it has room for.
fn put_text(text: &[u8], into: &mut [u8])
    ensures { into.new ≡ text_over text.now into.old }
{
    let count = text.len().min(into.len());
    into[..count].copy_from_slice(&text[..count]);
}
