//! What a program does round its command: it reads its words, and reports its own faults.
ghost use Rattle.std.specs.Prelude.{◌≡◌, [], ◌∷◌, IfErr};
ghost use Rattle.grep_core.specs.{Output.written, Run.writer, Written.Writes};
ghost use Rattle.grep_utility.specs.Command.{ReportsLines};

use crate::message_texts::fail;
use crate::texts::FAILED;
use grep_core::{CountedWrite, Tally, WriteFault, write_line};
use std::io::ErrorKind;
use std::{env, io};

/// What a program reports of itself.
#[derive(Clone, Copy, Drop)]
pub struct Program {
    /// A word is not UTF-8.
    pub words_refused: &'static [u8],
    /// How the program is used.
    pub usage: &'static [u8],
    /// An allocation failed.
    pub out_of_memory: &'static [u8],
}

impl Program {
    /// Writes the lines about words that are not UTF-8.
    fn write_words_refused<M: CountedWrite>(&self, messages: &mut M) -> Result<(), WriteFault>
        ensures { Writes M.contents M.failures messages.old messages.new
            (written [] (self.now.words_refused.now ∷ self.now.usage.now ∷ [])) result }
    {
        write_line(messages, self.words_refused)?;
        write_line(messages, self.usage)
    }

    /// Reports that a word is not UTF-8, and returns the exit status. A write that fails is not
    /// tried again.
    pub fn refuse_words<M: CountedWrite>(&self, messages: &mut M) -> u8
        ensures status { result ≡ 2 }
        ensures reported { ReportsLines (writer M.contents M.failures messages.old)
            (writer M.contents M.failures messages.new)
            (self.now.words_refused.now ∷ self.now.usage.now ∷ []) }
    {
        let _ = self.write_words_refused(messages);
        FAILED
    }

    /// Reports that memory ran out, and returns the exit status. A write that fails is not tried
    /// again.
    pub fn refuse_memory<M: CountedWrite>(&self, messages: &mut M) -> u8
        ensures status { result ≡ 2 }
        ensures reported { ReportsLines (writer M.contents M.failures messages.old)
            (writer M.contents M.failures messages.new) (self.now.out_of_memory.now ∷ []) }
    {
        fail(messages, self.out_of_memory)
    }

    /// The words of the process, the first of which is the program's name. Without them the error
    /// is the exit status, and standard error has the reason.
    pub fn words(&self, rt: &HostRuntime) -> Result<Vec<String>, u8>
        ensures { IfErr result (λ status. status ≡ 2) }
    {
        match process_words(rt) {
            Ok(words) => Ok(words),
            Err(error) if error.kind() == ErrorKind::InvalidData => {
                Err(self.refuse_words(&mut Tally::new(rt.stderr())))
            }
            Err(_) => Err(self.refuse_memory(&mut Tally::new(rt.stderr()))),
        }
    }
}

/// The words of the process.
fn process_words(rt: &HostRuntime) -> io::Result<Vec<String>> {
    Ok(env::args(rt)?.collect(rt.alloc())?)
}
